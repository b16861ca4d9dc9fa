//! What a transaction already has.
use crate::keys::Keys;
use slee_effect::Effects;

/// The effects and keys that a transaction already has. Clauses see one through `before_of`.
#[derive(Debug, Drop)]
pub struct Before {
    pub effects: Effects,
    pub keys: Keys,
}

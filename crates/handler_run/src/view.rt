//! Whoever has an answer to each key.
use script_meaning::{Key, Seen};
use slee_value::NoMemory;
use std::alloc::Global;

/// Whoever has an answer to each key, as a state has.
pub trait View {
    ghost use Rattle.std.specs.Prelude.{◌≡◌, IfOk};
    ghost use Rattle.script_meaning.specs.declared.key.Key.{Key};
    ghost use Rattle.script_meaning.specs.declared.seen.Seen.{Seen};

    /// The answer to a key.
    ghost seen_at: { Self → Key → Seen };

    /// What is seen at the key.
    fn look(&self, alloc: Global, key: &Key) -> Result<Seen, NoMemory>
        ensures { IfOk result (λ seen. seen ≡ seen_at self.now key.now) };
}

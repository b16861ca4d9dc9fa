//! What an initial selection gives.

use slee_value::ConvName;

/// A convergence name, or that the event isn't initial for the service.
#[derive(Debug, Drop)]
pub enum Selection {
    NotInitial,
    Named(ConvName),
}

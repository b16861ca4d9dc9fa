//! Why a call changed nothing.

use slee_value::ActivityId;

/// Why a call changed nothing.
#[derive(Debug, Clone, Copy, PartialEq, Eq)]
pub enum AcFault {
    /// An external activity has this name.
    Exists,
    /// There is no such activity.
    Unknown,
    /// The activity is Ending.
    Ending,
    /// The name stands for an activity.
    Bound { to: ActivityId },
    /// The name stands for nothing.
    Unbound,
}

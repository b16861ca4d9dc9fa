//! Values of many parts are let go in functions of their own, so that what becomes of their parts is proved once.

use trace_history::{Choice, Entry, History};

/// Lets an entry go.
pub(crate) fn drop_entry(_entry: Entry) {}

/// Lets a choice go.
pub(crate) fn drop_choice(_choice: Choice) {}

/// Lets a history go.
pub(crate) fn drop_history(_history: History) {}

//! The number under which a named root is listed.
ghost use Rattle.std.specs.Prelude.{◌≡◌, ◌<◌};
ghost use Rattle.std.specs.Option.{option_map_or};
ghost use Rattle.rows_index.specs.Numbers.{limit};
ghost use Rattle.router_roots.specs.Names.{name_number, texts_number, with_number, with_text};

use rows_index::number_with;
use slee_value::{Blob, ConvName, Text};

fn with_number(before: u64, number: u64) -> u64
    ensures { result ≡ with_number before number }
{
    number_with(before.wrapping_add(number), &[])
}

fn with_text(before: u64, text: &Option<Text>) -> u64
    ensures { result ≡ with_text before text.now }
{
    match text {
        Some(text) => number_with(before, text.as_bytes()),
        None => number_with(before, &[]),
    }
}

fn with_bytes(before: u64, bytes: &Option<Blob>) -> u64
    ensures { result ≡ with_text before bytes.now }
{
    match bytes {
        Some(bytes) => number_with(before, bytes.as_slice()),
        None => number_with(before, &[]),
    }
}

/// The number of the activity and of the texts that come first.
fn texts_number(name: &ConvName) -> u64
    ensures { result ≡ texts_number name.now }
{
    let activity = match name.activity {
        Some(activity) => activity.0,
        None => 0,
    };
    with_text(
        with_text(with_number(0, activity), &name.address),
        &name.event_type,
    )
}

/// The number of a convergence name: the same for the same name, and mostly another one for another name.
pub fn name_number(name: &ConvName) -> u64
    ensures { result ≡ name_number name.now }
{
    let event = match name.event {
        Some(event) => event.0,
        None => 0,
    };
    with_bytes(with_number(texts_number(name), event), &name.custom)
}

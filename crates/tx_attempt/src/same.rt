//! Whether two answers are the same.
ghost use Rattle.std.specs.Prelude.{◌≡◌, ◌==◌};
ghost use Rattle.script_meaning.specs.Seeing.{same_activity, same_delivery, same_seen};
ghost use Rattle.script_meaning.specs.Same.{same_field, same_list, same_option, same_value};
ghost use Rattle.std.specs.Str.{bytes_eq};

use script_meaning::{AcSeen, Seen};
use slee_value::{ActivityId, EntityId, EventId, Name, Names, Payload, Text, Value};

/// Two deliveries are of the same event to the same entity.
fn is_same_delivery(one: Option<(EventId, EntityId)>, other: Option<(EventId, EntityId)>) -> bool
    ensures { result ≡ same_option same_delivery one other }
{
    match (one, other) {
        (None, None) => true,
        (Some((event, entity)), Some((other_event, other_entity))) => {
            event.0 == other_event.0 && entity.0 == other_entity.0
        }
        _ => false,
    }
}

/// Two activities are seen in the same state.
fn is_same_activity(one: Option<AcSeen>, other: Option<AcSeen>) -> bool
    ensures { result ≡ same_option same_activity one other }
{
    match (one, other) {
        (None, None) => true,
        (Some(one), Some(other)) => one.null == other.null && one.ending == other.ending,
        _ => false,
    }
}

/// Two references are to the same activity.
fn is_same_reference(one: Option<ActivityId>, other: Option<ActivityId>) -> bool
    ensures { result ≡ same_option (λ a b. a.0 == b.0) one other }
{
    match (one, other) {
        (None, None) => true,
        (Some(one), Some(other)) => one.0 == other.0,
        _ => false,
    }
}

/// Two values that are held, or not.
fn is_same_held(one: &Option<Value>, other: &Option<Value>) -> bool
    ensures { result ≡ same_option same_value one.now other.now }
{
    match (one, other) {
        (None, None) => true,
        (Some(one), Some(other)) => is_same_value(one, other),
        _ => false,
    }
}

/// Two values.
#[tactic(auto, using(crate::proofs::SameLemmas::value_by))]
fn is_same_value(one: &Value, other: &Value) -> bool
    ensures { result ≡ same_value one.now other.now }
{
    one.same(other)
}

/// Two lists of numbers.
fn are_same_numbers(one: &[u64], other: &[u64]) -> bool
    ensures { result ≡ same_list (λ n m. n == m) one.now other.now }
{
    match (one, other) {
        ([], []) => true,
        ([first, rest @ ..], [other_first, other_rest @ ..]) => {
            *first == *other_first && are_same_numbers(rest, other_rest)
        }
        _ => false,
    }
}

/// Two lists of texts.
fn are_same_texts(one: &[Text], other: &[Text]) -> bool
    ensures { result ≡ same_list bytes_eq one.now other.now }
{
    match (one, other) {
        ([], []) => true,
        ([first, rest @ ..], [other_first, other_rest @ ..]) => {
            first.as_bytes() == other_first.as_bytes() && are_same_texts(rest, other_rest)
        }
        _ => false,
    }
}

/// Two lists of fields.
fn are_same_fields(one: &[(Name, Value)], other: &[(Name, Value)]) -> bool
    ensures { result ≡ same_list same_field one.now other.now }
{
    match (one, other) {
        ([], []) => true,
        ([(name, value), rest @ ..], [(other_name, other_value), other_rest @ ..]) => {
            name.as_bytes() == other_name.as_bytes()
                && is_same_value(value, other_value)
                && are_same_fields(rest, other_rest)
        }
        _ => false,
    }
}

/// The masks of two attachments, if they are there.
fn are_same_masks(one: &Option<Names>, other: &Option<Names>) -> bool
    ensures { result ≡ same_option (same_list bytes_eq) one.now other.now }
{
    match (one, other) {
        (None, None) => true,
        (Some(one), Some(other)) => are_same_texts(one.as_slice(), other.as_slice()),
        _ => false,
    }
}

/// Two rows, if they are there.
fn is_same_row(one: &Option<Payload>, other: &Option<Payload>) -> bool
    ensures { result ≡ same_option (same_list same_field) one.now other.now }
{
    match (one, other) {
        (None, None) => true,
        (Some(one), Some(other)) => are_same_fields(one.as_slice(), other.as_slice()),
        _ => false,
    }
}

/// Whether two answers are the same.
pub(crate) fn is_same_seen(one: &Seen, other: &Seen) -> bool
    ensures { result ≡ same_seen one.now other.now }
{
    match (one, other) {
        (Seen::Next(one), Seen::Next(other)) => is_same_delivery(*one, *other),
        (Seen::Held(one), Seen::Held(other)) => is_same_held(one, other),
        (Seen::Ids(one), Seen::Ids(other)) => are_same_numbers(one.as_slice(), other.as_slice()),
        (Seen::Number(one), Seen::Number(other)) => *one == *other,
        (Seen::Ac(one), Seen::Ac(other)) => is_same_activity(*one, *other),
        (Seen::Flag(one), Seen::Flag(other)) => *one == *other,
        (Seen::Masks(one), Seen::Masks(other)) => are_same_masks(one, other),
        (Seen::Refers(one), Seen::Refers(other)) => is_same_reference(*one, *other),
        (Seen::Row(one), Seen::Row(other)) => is_same_row(one, other),
        _ => false,
    }
}

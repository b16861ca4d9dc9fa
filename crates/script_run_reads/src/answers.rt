//! Answers by the form that their keys have. One of another form is read as the empty answer.
ghost use Rattle.std.specs.Prelude.{◌≡◌, ◌++◌, map, OnOk};
ghost use Rattle.std.specs.Option.{option_copied};
ghost use Rattle.slee_effect.specs.declared.reference.Ref.TheVariants as ref;
ghost use Rattle.script_meaning.specs.Answers.{number_in, activity_in, flag_in, refers_in, ids_in, row_in};

use script_meaning::{AcSeen, Seen};
use slee_effect::Ref;
use slee_value::{NoMemory, Payload};

pub(crate) fn number_in(seen: Option<&Seen>) -> i64
    ensures { result ≡ number_in (option_copied seen.entry) }
{
    match seen {
        Some(Seen::Number(number)) => *number,
        _ => 0,
    }
}

pub(crate) fn activity_in(seen: Option<&Seen>) -> Option<AcSeen>
    ensures { result ≡ activity_in (option_copied seen.entry) }
{
    match seen {
        Some(Seen::Ac(activity)) => *activity,
        _ => None,
    }
}

pub(crate) fn flag_in(seen: Option<&Seen>) -> bool
    ensures { result ≡ flag_in (option_copied seen.entry) }
{
    match seen {
        Some(Seen::Flag(flag)) => *flag,
        _ => false,
    }
}

pub(crate) fn refers_in(seen: Option<&Seen>) -> Option<Ref>
    ensures { result ≡ refers_in (option_copied seen.entry) }
{
    match seen {
        Some(Seen::Refers(Some(activity))) => Some(Ref::Known(activity.0)),
        _ => None,
    }
}

/// The numbers of the things of an answer, in its order.
pub(crate) fn ids_in<'a>(seen: Option<&'a Seen>) -> &'a [u64]
    ensures { result.now ≡ ids_in (option_copied seen.entry) }
{
    match seen {
        Some(Seen::Ids(ids)) => ids.as_slice(),
        _ => &[],
    }
}

/// Puts the things of an answer, in its order, behind those of a list.
pub(crate) fn put_known(seen: Option<&Seen>, refs: &mut Vec<Ref>) -> Result<(), NoMemory>
    ensures { OnOk result (refs.new.items ≡ refs.old.items ++ map ref.Known (ids_in (option_copied seen.entry))) }
{
    let Some(Seen::Ids(ids)) = seen else {
        return Ok(());
    };
    let numbers = ids.as_slice();
    refs.reserve(numbers.len())?;
    for number in numbers {
        refs.push(Ref::Known(*number))?;
    }
    Ok(())
}

pub(crate) fn row_in<'a>(seen: Option<&'a Seen>) -> Option<&'a Payload>
    ensures { option_copied result ≡ row_in (option_copied seen.entry) }
{
    match seen {
        Some(Seen::Row(Some(row))) => Some(row),
        _ => None,
    }
}

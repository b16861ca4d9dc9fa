//! Lists of things, each named once or more: one less, and one more in its place.
ghost use Rattle.std.specs.Prelude.{◌≡◌, filter, not, OnOk};
ghost use Rattle.script_meaning.specs.Overlay.{same_ref, is_before, put};

use script_run_machine::is_same_ref;
use slee_effect::Ref;
use slee_value::NoMemory;

/// Whether a thing stands before another one: known ones before new ones, and each by number.
fn is_before(one: Ref, other: Ref) -> bool
    ensures { result ≡ is_before one other }
{
    match (one, other) {
        (Ref::Known(a), Ref::Known(b)) => a < b,
        (Ref::Known(_), Ref::Fresh(_)) => true,
        (Ref::Fresh(_), Ref::Known(_)) => false,
        (Ref::Fresh(a), Ref::Fresh(b)) => a < b,
    }
}

/// Takes a thing out of a list.
pub(crate) fn cut(refs: &mut Vec<Ref>, gone: Ref)
    ensures { refs.new.items ≡ filter (λ r. not (same_ref r gone)) refs.old.items }
{
    refs.retain(|one| !is_same_ref(*one, gone));
}

/// Puts a thing into a list in order, unless it is there.
pub(crate) fn put(refs: &mut Vec<Ref>, one: Ref) -> Result<(), NoMemory>
    ensures { OnOk result (refs.new.items ≡ put one refs.old.items) }
{
    for place in 0..refs.len() {
        if is_same_ref(one, refs[place]) {
            return Ok(());
        }
        if is_before(one, refs[place]) {
            refs.insert(place, one)?;
            return Ok(());
        }
    }
    refs.push(one)?;
    Ok(())
}

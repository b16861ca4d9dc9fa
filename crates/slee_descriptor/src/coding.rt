//! Lists of what scripts may name, made of the parts that declare it.
ghost use Rattle.std.specs.Prelude.{◌≡◌, IfOk, map};

use script_types::{CodeList, Named, NamedList};
use slee_value::NoMemory;
use std::alloc::Global;

/// What scripts see of a part.
pub(crate) trait Coding<A, B> {
    ghost code: { Self → A → B };

    fn code(&self, alloc: Global, part: &A) -> Result<B, NoMemory>
        ensures { IfOk result (λ x. x ≡ code self.now part.now) };
}

/// What scripts see of each part, in order.
fn items_by<A, B: Drop, C: Coding<A, B>>(
    alloc: Global,
    coding: &C,
    parts: &[A],
) -> Result<Vec<B>, NoMemory>
    ensures { IfOk result (λ v. v.items ≡ map (C.code coding.now) parts.now) }
{
    let mut items = Vec::with_capacity(alloc, parts.len())?;
    for part in parts {
        items.push(coding.code(alloc, part)?)?;
    }
    Ok(items)
}

/// The same as a list.
pub(crate) fn codes_by<A, B: Drop, C: Coding<A, B>>(
    alloc: Global,
    coding: &C,
    parts: &[A],
) -> Result<CodeList<B>, NoMemory>
    ensures { IfOk result (λ l. l ≡ map (C.code coding.now) parts.now) }
{
    let items = items_by(alloc, coding, parts)?;
    Ok(CodeList::from(items))
}

/// The same as a list in which items are found by their names.
pub(crate) fn named_by<A, B: Named + Drop, C: Coding<A, B>>(
    alloc: Global,
    coding: &C,
    parts: &[A],
) -> Result<NamedList<B>, NoMemory>
    ensures { IfOk result (λ l. l ≡ map (C.code coding.now) parts.now) }
{
    let items = items_by(alloc, coding, parts)?;
    NamedList::from_items(alloc, items)
}

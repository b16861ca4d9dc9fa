//! The activities of profile tables.
ghost use Rattle.std.specs.Prelude.{◌≡◌, IfOk, length};
ghost use Rattle.router_stores.specs.Begun.{IsBegun};

use activity_context::Contexts;
use deploy_model::Table;
use router_state::AcKind;
use slee_value::NoMemory;
use std::alloc::Global;

/// An Active activity for each of so many tables.
fn begun(alloc: Global, tables: u32) -> Result<Contexts, NoMemory>
    ensures { IfOk result (IsBegun tables) }
{
    let mut contexts = Contexts::new(alloc);
    contexts.reserve(tables as u64)?;
    'tables: for number in 0..tables {
        match contexts.start(AcKind::Table(number)) {
            Ok(_) => {}
            Err(_) => unreachable!(),
        }
    }
    Ok(contexts)
}

/// How many tables there are. More of them than there are numbers find no memory.
fn count(tables: &[Table]) -> Result<u32, NoMemory>
    ensures { IfOk result (λ count. count ≡ length tables.now) }
{
    match u32::try_from(tables.len()) {
        Ok(count) => Ok(count),
        Err(_) => Err(NoMemory),
    }
}

/// An Active activity for each table, in their order.
pub fn contexts_of(alloc: Global, tables: &[Table]) -> Result<Contexts, NoMemory>
    ensures { IfOk result (IsBegun (length tables.now)) }
{
    let count = count(tables)?;
    begun(alloc, count)
}

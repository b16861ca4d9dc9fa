//! Lists of programs, made item by item.
ghost use Rattle.std.specs.Prelude.{◌≡◌, IfOk, map};
ghost use Rattle.handler_check.specs.Building.{Builds, each};

use crate::code_fault::CodeFault;
use script_types::CodeList;
use slee_value::NoMemory;
use std::alloc::Global;

/// What is made of an item of a list, by its number.
pub(crate) trait Making<A, B> {
    ghost use Rattle.std.specs.Prelude.{ℕ};
    ghost use Rattle.script_types.specs.Programs.{Built};
    ghost use Rattle.handler_check.specs.Building.{Builds};

    ghost Value: { Type 0 };

    /// What is made, as a value.
    ghost value_of: { B → Value };

    ghost built: { Self → ℕ → A → Built Value };

    fn make(&self, number: usize, item: &A) -> Result<B, CodeFault>
        ensures { Builds value_of result (built self.now number item.now) };
}

/// What is made of each item, in order, or the first fault.
pub(crate) fn make_each<A, B: Drop, M: Making<A, B>>(
    alloc: Global,
    making: &M,
    items: &[A],
) -> Result<CodeList<B>, CodeFault>
    ensures { Builds (λ l. map M.value_of l) result (each (M.built making.now) 0 items.now) }
{
    let mut made = CodeList::new(alloc);
    'items: for (number, item) in items.iter().enumerate() {
        made.push(making.make(number, item)?)?;
    }
    Ok(made)
}

/// A place in a list as a number. No list has room for more items than there are numbers.
pub(crate) fn item_number(place: usize) -> Result<u32, NoMemory>
    ensures { IfOk result (λ n. n ≡ place) }
{
    match u32::try_from(place) {
        Ok(number) => Ok(number),
        Err(_) => Err(NoMemory),
    }
}

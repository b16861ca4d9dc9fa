//! Lists of numbers.
ghost use Rattle.std.specs.Prelude.{◌≡◌, ◌++◌, ℕ, nat_lt, true, OnOk};
ghost use Rattle.rows_sorted.specs.Orders.{rises_by};
ghost use Rattle.router_laws_closing.specs.Loose.{is_member};
ghost use Rattle.router_laws_closing.specs.TouchedRoots.{numbers_between};

use slee_value::NoMemory;

/// The numbers from the first one on, up to the last one, without that.
pub fn push_between(all: &mut Vec<u64>, first: u64, last: u64) -> Result<(), NoMemory>
    ensures { OnOk result (all.new.items ≡ all.old.items ++ numbers_between first last) }
{
    'numbers: for number in first..last {
        all.push(number)?;
    }
    Ok(())
}

/// The same numbers, rising, each once.
pub fn rising(numbers: Vec<u64>) -> Vec<u64>
    ensures rises { rises_by (λ (x y : ℕ). nat_lt x y) result.items ≡ true }
    ensures members { (n : ℕ) → is_member result.items n ≡ is_member numbers.items n }
{
    let mut all = numbers;
    all.sort_unstable();
    all.dedup();
    all
}

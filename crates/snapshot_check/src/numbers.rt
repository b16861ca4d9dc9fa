//! Numbers put in order, and found by halving.
ghost use Rattle.std.specs.Prelude.{◌≡◌, ◌==◌, ℕ, IfOk};
ghost use Rattle.std.specs.List.{list_any};
ghost use Rattle.std.specs.List.Sorted.{IsNonDecreasing};

use slee_value::NoMemory;

/// The same numbers in order.
pub fn in_order(mut numbers: Vec<u64>) -> Result<Vec<u64>, NoMemory>
    ensures order { IfOk result (λ sorted. IsNonDecreasing sorted.items) }
    ensures same { IfOk result (λ sorted. (n : ℕ) → list_any (λ x. x == n) sorted.items ≡ list_any (λ x. x == n) numbers.items) }
{
    numbers.sort()?;
    Ok(numbers)
}

/// Whether the number is one of these.
pub fn has_number(numbers: &[u64], number: u64) -> bool
    requires { IsNonDecreasing numbers.now }
    ensures { result ≡ list_any (λ x. x == number) numbers.now }
{
    numbers.binary_search(&number).is_ok()
}

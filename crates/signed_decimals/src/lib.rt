//! Numbers of 64 bits with a sign, as words give them.
#![tactic(auto)]

ghost use Rattle.std.specs.Prelude.{◌≡◌, ◌^◌, ◌&&◌, nat_le, if◌then◌else◌, Some, None};
ghost use Rattle.std.specs.List.{list_all};
ghost use Rattle.slee_value.specs.Name.{is_digit};
ghost use Rattle.trace_history.specs.Decimals.{decimal_value, int_in, is_decimal, negative, not_negative};

/// The number below 0 that is farthest from it is this far.
const LIMIT: u64 = 1 << 63;

fn is_digit(byte: u8) -> bool
    ensures { result ≡ is_digit byte }
{
    byte.is_ascii_digit()
}

fn are_digits(bytes: &[u8]) -> bool
    ensures { result ≡ list_all is_digit bytes.now }
{
    bytes.iter().all(|byte| is_digit(*byte))
}

/// Whether these are digits without a leading zero, but 0 itself.
fn is_decimal(digits: &[u8]) -> bool
    ensures { result ≡ is_decimal digits.now }
{
    match digits {
        [] => false,
        [first, rest @ ..] => are_digits(digits) && (*first != b'0' || rest.is_empty()),
    }
}

/// The number that digits stand for, where it is no more than the limit.
fn value_within(digits: &[u8]) -> Option<u64>
    ensures { result ≡ (if nat_le (decimal_value digits.now) (2 ^ 63) then Some (decimal_value digits.now) else None) }
{
    let mut number: u64 = 0;
    'digits: for digit in digits {
        let more = 10 * u128::from(number) + u128::from(digit.saturating_sub(b'0'));
        if more > u128::from(LIMIT) {
            return None;
        }
        number = more as u64;
    }
    Some(number)
}

/// The same of a decimal number.
fn number_of(digits: &[u8]) -> Option<u64>
    ensures { result ≡ (if is_decimal digits.now && nat_le (decimal_value digits.now) (2 ^ 63) then Some (decimal_value digits.now) else None) }
{
    if is_decimal(digits) {
        value_within(digits)
    } else {
        None
    }
}

fn not_negative(digits: &[u8]) -> Option<i64>
    ensures { result ≡ not_negative digits.now }
{
    match number_of(digits) {
        Some(number) if number < LIMIT => Some(number as i64),
        _ => None,
    }
}

/// The number below 0 of the digits behind a sign.
fn negative(digits: &[u8]) -> Option<i64>
    ensures { result ≡ negative digits.now }
{
    match number_of(digits) {
        Some(number) if number > 0 => Some(-1 - (number - 1) as i64),
        _ => None,
    }
}

/// The number that a word stands for, if it stands for one; 0 has no sign.
pub fn int_in(word: &[u8]) -> Option<i64>
    ensures { result ≡ int_in word.now }
{
    match word {
        [] => None,
        [b'-', digits @ ..] => negative(digits),
        digits => not_negative(digits),
    }
}

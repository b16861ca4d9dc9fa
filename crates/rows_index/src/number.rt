//! The number that a text is made into.
ghost use Rattle.std.specs.Prelude.{◌≡◌, ◌<◌};
ghost use Rattle.rows_index.specs.Numbers.{limit, number_from, number_of, number_with};

/// The numbers are below this prime, so that a number times a count of rows fits a word.
const LIMIT: u64 = 549_755_813_881;

/// What each byte multiplies the number by, so that texts which differ in a digit get numbers far apart.
const FACTOR: u64 = 10_368_889;

fn read_on(start: u64, text: &[u8]) -> u64
    requires { start < limit }
    ensures number { result ≡ number_from start text.now }
    ensures below { result < limit }
{
    let mut number = start;
    for byte in text {
        number = (number + *byte as u64 + 1) * FACTOR % LIMIT;
    }
    number
}

/// The number of a text: the same for the same text, and mostly another one for another text.
pub fn number_of(text: &[u8]) -> u64
    ensures number { result ≡ number_of text.now }
    ensures below { result < limit }
{
    read_on(0, text) * FACTOR % LIMIT
}

/// The number of a text behind another number.
pub fn number_with(before: u64, text: &[u8]) -> u64
    ensures number { result ≡ number_with before text.now }
    ensures below { result < limit }
{
    read_on(before % LIMIT, text) * FACTOR % LIMIT
}

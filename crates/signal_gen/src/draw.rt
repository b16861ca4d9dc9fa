//! What a line is made by.
ghost use Rattle.std.specs.Prelude.{◌≡◌, ◌<◌};
ghost use Rattle.signal_gen.specs.Draws.{drawn, next_number};

/// What a line is made by: which slot it is about, what it does there, and what else it has.
#[derive(Debug, Clone, Copy)]
pub struct Draw {
    pub slot: u32,
    pub turn: u32,
    pub rest: u32,
}

/// The number after this one.
pub fn next_number(number: u32) -> u32
    ensures { result ≡ next_number number }
{
    let next = 1_664_525 * u64::from(number) + 1_013_904_223;
    (next % (1 << 32)) as u32
}

/// The three that a number is cut into.
pub fn drawn(number: u32) -> Draw
    ensures parts { result ≡ drawn number }
    ensures slot { result.slot < 4 }
{
    let high = number / 65_536;
    Draw {
        slot: high % 4,
        turn: high / 4 % 8,
        rest: high / 32,
    }
}

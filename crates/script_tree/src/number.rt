//! Numbers that a script writes. Contracts see the number.
ghost use Rattle.std.specs.Prelude.{◌≡◌, ◌≤◌, pos};

use std::marker::Model;

/// The greatest number that a script can write.
pub const NUMBER_LIMIT: u64 = 9_223_372_036_854_775_807;

/// A number as a script writes it: 0 to 9223372036854775807.
#[derive(Debug, Drop)]
pub struct Number {
    value: u64,
}

impl Model for Number {
    ghost use Rattle.std.specs.Prelude.{ℕ, ◌≤◌};

    ghost Value = { ℕ };

    ghost view = { λ n. n.value };

    ghost invariant = { λ n. n.value ≤ 9223372036854775807 };
}

impl Number {
    pub fn new(value: u64) -> Self
        requires { value ≤ 9223372036854775807 }
        ensures { result ≡ value }
    {
        Number { value }
    }

    pub fn get(&self) -> i64
        ensures value { result ≡ pos self.now }
        ensures limit { self.now ≤ 9223372036854775807 }
    {
        self.value as i64
    }

    pub fn copy(&self) -> Self
        ensures same { result ≡ self.now }
        ensures limit { self.now ≤ 9223372036854775807 }
    {
        Number { value: self.value }
    }
}

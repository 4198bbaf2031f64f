//! A percentage as a type, which keeps it at most 100.
#![tactic(auto)]

ghost use Rattle.std.specs.Prelude.{◌≡◌, ◌≤◌};

use std::marker::Model;

/// A whole percentage, from 0 to 100. Contracts see it as its number.
#[derive(Clone, Copy, Debug)]
pub struct Percent {
    number: u64,
}

impl Model for Percent {
    ghost use Rattle.std.specs.Prelude.{ℕ, ◌≤◌};

    ghost Value = { ℕ };

    ghost view = { λ p. p.number };

    ghost invariant = { λ p. p.number ≤ 100 };

    ghost inverse = { λ n. record { number = n } };
}

impl Percent {
    /// The percentage of this number.
    pub fn new(number: u64) -> Percent
        requires { number ≤ 100 }
        ensures { result ≡ number }
    {
        Percent { number }
    }

    /// Its number.
    pub fn number(self) -> u64
        ensures value { result ≡ self }
        ensures most { result ≤ 100 }
    {
        self.number
    }
}

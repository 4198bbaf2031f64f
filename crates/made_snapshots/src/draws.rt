//! Numbers that are drawn one after the other.
ghost use Rattle.std.specs.Prelude.{◌≡◌, ◌<◌};
ghost use Rattle.made_snapshots.specs.Draws.{next, upper};

use std::marker::Model;

/// A linear congruential generator modulo 2^31, as of C's `rand`: contracts see it as its state.
#[derive(Debug, Drop)]
pub struct Draws {
    state: u32,
}

impl Model for Draws {
    ghost use Rattle.std.specs.Prelude.{ℕ};

    ghost Value = { ℕ };

    ghost view = { λ draws. draws.state };
}

impl Draws {
    /// The draws from a seed on.
    pub fn new(seed: u32) -> Draws
        ensures { result ≡ seed }
    {
        Draws { state: seed }
    }

    /// The next draw: the upper bits of the next state.
    #[tactic(auto, unfolding(crate::specs::Draws::next))]
    pub fn draw(&mut self) -> u32
        ensures state { self.new ≡ next self.old }
        ensures upper { result ≡ upper (next self.old) }
        ensures small { result < 32768 }
    {
        let moved = (u64::from(self.state) * 1103515245 + 12345) % 2147483648;
        self.state = moved as u32;
        self.state / 65536
    }
}

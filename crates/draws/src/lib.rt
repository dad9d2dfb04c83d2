//! Draws that a number determines: those of generated scenarios, and those of a line that loses
//! packets.
#![tactic(auto)]

use std::marker::Model;

/// The draws of a number, one after the other. A clause sees the state of their generator.
#[derive(Drop)]
pub struct Draws {
    state: u32,
}

impl Model for Draws {
    ghost use Rattle.std.specs.Prelude.{ℕ, ◌<◌};

    ghost Value = { ℕ };

    ghost view = { λ draws. draws.state };

    ghost invariant = { λ draws. draws.state < 2147483648 };
}

impl Draws {
    ghost use Rattle.std.specs.Prelude.{◌≡◌, ◌<◌};
    ghost use Rattle.draws.specs.Generator.{first_state, next_state, drawn};

    /// The draws that a number begins with.
    pub fn new(number: u32) -> Draws
        ensures { result ≡ first_state number }
    {
        Draws {
            state: number % 2_147_483_648,
        }
    }

    /// The next draw, below 32,768.
    pub fn draw(&mut self) -> u16
        ensures draw { result ≡ drawn (next_state self.old) }
        ensures state { self.new ≡ next_state self.old }
        ensures small { result < 32768 }
    {
        let next = (1_103_515_245 * self.state as u64 + 12345) % 2_147_483_648;
        self.state = next as u32;
        (self.state / 65536) as u16
    }
}

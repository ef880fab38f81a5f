//! An object that holds a number.
ghost use Rattle.std.specs.Prelude.{◌≡◌, ℕ, ◌+◌, ◌%◌, ◌^◌};

use dt_base::{Object, OutOfMemory};

/// What it is asked.
pub enum Ask {
    /// Adds to the number, modulo 2^64.
    Add(u64),
    Read,
}

/// A number, which each ask answers as it then stands.
#[derive(Drop)]
pub struct Number {
    value: u64,
}

impl Number {
    /// The number 0.
    pub fn new() -> Number
        ensures { ⟦<Number as Object>⟧.state result ≡ 0 }
    {
        Number { value: 0 }
    }
}

impl Object for Number {
    ghost use Rattle.bench_history.specs.Numbers.{next};

    type Ask = Ask;

    type Reply = u64;

    ghost State = { ℕ };

    ghost state = { λ n. n.value };

    ghost sound = { λ ask. Unit {0} };

    ghost allowed = { λ s ask r. r ≡ next s ask };

    ghost follows = { λ s ask r. next s ask };

    fn step(&mut self, ask: &Ask) -> Result<u64, OutOfMemory> {
        match ask {
            Ask::Add(n) => self.value = self.value.wrapping_add(*n),
            Ask::Read => {}
        }
        Ok(self.value)
    }
}

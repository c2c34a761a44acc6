//! Runs of the master.

ghost use Rattle.std.specs.Prelude.{◌≡◌, ◌<◌};

use std::marker::Model;

/// A run of the master, from 1 to 65,535:
/// each start of the master has the next number, which its ids contain.
#[derive(Clone, Copy, Debug, Drop, PartialEq, Eq, PartialOrd, Ord)]
pub struct Run {
    number: u16,
}

impl Model for Run {
    ghost use Rattle.std.specs.Prelude.{ℕ, ◌<◌};

    ghost Value = { ℕ };

    ghost view = { λ run. run.number };

    ghost invariant = { λ run. 0 < run.number };

    ghost inverse = { λ number. record { number = number } };
}

impl Run {
    pub fn new(number: u16) -> Run
        requires { 0 < number }
        ensures { result ≡ number }
    {
        Run { number }
    }

    pub fn number(&self) -> u16
        ensures number { result ≡ self.now }
        ensures some { 0 < result }
    {
        self.number
    }
}

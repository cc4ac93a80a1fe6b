//! Lists of numbers.
ghost use Rattle.std.specs.Prelude.{◌≡◌, ◌++◌, ◌∷◌, [], length, OnOk, OnErr, IfOk, nat_eq};
ghost use Rattle.std.specs.List.{list_any};

use std::alloc::{AllocError, Global};
use std::marker::Model;

/// A list of numbers, as of the calls that a device in memory is to fail.
#[derive(Debug, Drop)]
pub struct NumList {
    numbers: Vec<u64>,
}

impl Model for NumList {
    ghost use Rattle.std.specs.Prelude.{List, ℕ};

    ghost Value = { List ℕ };

    ghost view = { λ a. a.numbers.items };
}

impl NumList {
    pub fn new(alloc: Global) -> Self
        ensures { result ≡ [] }
    {
        NumList {
            numbers: Vec::new(alloc),
        }
    }

    pub fn from_slice(alloc: Global, numbers: &[u64]) -> Result<Self, AllocError>
        ensures { IfOk result (λ list. list ≡ numbers.now) }
    {
        let numbers = Vec::from_slice(alloc, numbers)?;
        Ok(NumList { numbers })
    }

    pub fn contains(&self, number: u64) -> bool
        ensures { result ≡ list_any (λ y. nat_eq y number) self.now }
    {
        self.numbers.as_slice().contains(&number)
    }

    /// Adds a number at the end; unchanged where memory is short.
    pub fn push(&mut self, number: u64) -> Result<(), AllocError>
        ensures ok { OnOk result (self.new ≡ self.old ++ number ∷ []) }
        ensures err { OnErr result (self.new ≡ self.old) }
    {
        self.numbers.push(number)?;
        Ok(())
    }
}

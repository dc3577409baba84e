//! Numbers of a mirror's properties as a refusal tells them.
ghost use Rattle.std.specs.Prelude.{◌≡◌, IfOk};

use crate::{PropValue, ShownToken};
use std::alloc::{AllocError, Global};
use std::fmt;

/// What a refusal tells of a number in a mirror's properties.
#[derive(Debug, Drop)]
pub enum ToldNumber {
    /// There is none, since the property is absent or misspelt: it is told as `-`.
    Missing,
    /// The number that is spelt.
    Spelt(u64),
    /// One from 2^64 on, by its digits.
    Huge(PropValue),
}

impl ToldNumber {
    /// The same once more.
    pub fn copy(&self, alloc: Global) -> Result<ToldNumber, AllocError>
        ensures { IfOk result (λ n. n ≡ self.now) }
    {
        match self {
            ToldNumber::Missing => Ok(ToldNumber::Missing),
            ToldNumber::Spelt(number) => Ok(ToldNumber::Spelt(*number)),
            ToldNumber::Huge(digits) => Ok(ToldNumber::Huge(digits.copy(alloc)?)),
        }
    }
}

impl fmt::Display for ToldNumber {
    ghost use Rattle.std.specs.Prelude.{Some};
    ghost use Rattle.node_base.specs.Refusals.{told_text};

    ghost output = { λ n. Some (told_text n) };

    fn fmt<W: fmt::Write>(&self, f: &mut fmt::Formatter<W>) -> fmt::Result {
        match self {
            ToldNumber::Missing => f.write_str("-"),
            ToldNumber::Spelt(number) => write!(f, "{number}"),
            ToldNumber::Huge(digits) => write!(f, "{}", ShownToken(digits.as_slice())),
        }
    }
}

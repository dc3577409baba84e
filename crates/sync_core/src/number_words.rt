//! What is asked of numbers.
ghost use Rattle.std.specs.Prelude.{◌≡◌};
ghost use Rattle.sync_core.specs.Names as names;
ghost use Rattle.sync_core.specs.Faults.{spelt_in};

use crate::number::Number;
use node_base::RevNo;

impl Number {
    /// Whether there is no such property.
    pub fn is_absent(self) -> bool
        ensures { result ≡ names.is_absent self }
    {
        match self {
            Number::Absent => true,
            Number::Misspelt | Number::Spelt(_) | Number::Huge => false,
        }
    }

    /// Whether it is this number.
    pub fn is(self, number: RevNo) -> bool
        ensures { result ≡ names.is_number self number }
    {
        match self {
            Number::Spelt(spelt) => spelt == u64::from(number.get()),
            Number::Absent | Number::Misspelt | Number::Huge => false,
        }
    }

    /// Whether this number is at most it.
    pub fn reaches(self, number: RevNo) -> bool
        ensures { result ≡ names.reaches self number }
    {
        match self {
            Number::Spelt(spelt) => u64::from(number.get()) <= spelt,
            Number::Huge => true,
            Number::Absent | Number::Misspelt => false,
        }
    }

    /// Whether it is the number before this one.
    pub fn precedes(self, number: RevNo) -> bool
        ensures { result ≡ names.precedes self number }
    {
        match self {
            Number::Spelt(spelt) => spelt < u64::from(number.get())
                && u64::from(number.get()) - spelt == 1,
            Number::Absent | Number::Misspelt | Number::Huge => false,
        }
    }
}

impl Number {
    /// The number that is spelt; None where there is none, or one from 2^64 on.
    pub fn spelt(self) -> Option<u64>
        ensures { result ≡ spelt_in self }
    {
        match self {
            Number::Spelt(number) => Some(number),
            Number::Absent | Number::Misspelt | Number::Huge => None,
        }
    }
}

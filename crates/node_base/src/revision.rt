//! Revision numbers.
ghost use Rattle.std.specs.Prelude.{◌≡◌, ◌≤◌, Some};
ghost use Rattle.std.specs.Fmt as fmt;
ghost use Rattle.node_base.specs.Numbers.{rev_read};
ghost use Rattle.node_base.specs.declared.limits.TheConstants.{REVISION};

use crate::read_decimal;
use std::fmt;
use std::marker::Model;

/// A revision number, 0 to 65,535, seen by contracts as a number.
#[derive(Clone, Copy, Debug, PartialEq, Eq, PartialOrd, Ord)]
pub struct RevNo {
    number: u16,
}

impl Model for RevNo {
    ghost use Rattle.std.specs.Prelude.{ℕ};
    ghost use Rattle.std.specs.Coded.{coded_ℕ};

    ghost Value = { ℕ };

    ghost coded = { coded_ℕ };

    ghost view = { λ a. a.number };

    ghost inverse = { λ n. record { number = n } };
}

impl RevNo {
    /// Revision 0, the root alone.
    pub const ZERO: RevNo = RevNo { number: 0 };

    /// The revision of that number.
    pub fn new(number: u16) -> RevNo
        ensures { result ≡ number }
    {
        RevNo { number }
    }

    /// The revision number that decimal digits spell, leading zeros or not. None where the bytes aren't digits alone,
    /// or where the number is above 65,535.
    pub fn parse(bytes: &[u8]) -> Option<RevNo>
        ensures { result ≡ rev_read bytes.now }
    {
        match u16::try_from(read_decimal(bytes)?) {
            Ok(number) => Some(RevNo { number }),
            Err(_) => None,
        }
    }

    /// Its number.
    pub fn get(self) -> u16
        ensures number { result ≡ self }
        ensures small { result ≤ REVISION }
    {
        self.number
    }

    /// Its number as an index.
    pub fn index(self) -> usize
        ensures number { result ≡ self }
        ensures small { result ≤ REVISION }
    {
        usize::from(self.number)
    }
}

impl fmt::Display for RevNo {
    ghost output = { λ r. Some (fmt.decimal r) };

    /// Decimal, without leading zeros.
    fn fmt<W: fmt::Write>(&self, f: &mut fmt::Formatter<W>) -> fmt::Result {
        write!(f, "{}", self.number)
    }
}

//! The refusal that each fault is.
ghost use Rattle.std.specs.Prelude.{◌≡◌, Some};
ghost use Rattle.node_base.specs.FaultRefusals.{path_refusal, prop_refusal, text_refusal, tree_refusal};
ghost use Rattle.node_base.specs.Refusals.{refusal_number, refusal_text};

use crate::{PathFault, PropFault, Refusal, TextFault, TreeFault};
use std::error::Error;
use std::fmt;

impl From<PathFault> for Refusal {
    ghost from_gives = { λ f r. r ≡ path_refusal f };

    fn from(fault: PathFault) -> Refusal {
        match fault {
            PathFault::TooLong => Refusal::TooLong,
            PathFault::BadPath => Refusal::BadPath,
            PathFault::OutOfMemory => Refusal::OutOfMemory,
        }
    }
}

impl From<PropFault> for Refusal {
    ghost from_gives = { λ f r. r ≡ prop_refusal f };

    fn from(fault: PropFault) -> Refusal {
        match fault {
            PropFault::BadProps => Refusal::BadProps,
            PropFault::TooLong => Refusal::TooLong,
            PropFault::OutOfMemory => Refusal::OutOfMemory,
        }
    }
}

impl From<TextFault> for Refusal {
    ghost from_gives = { λ f r. r ≡ text_refusal f };

    fn from(fault: TextFault) -> Refusal {
        match fault {
            TextFault::TooLong => Refusal::TooLong,
            TextFault::OutOfMemory => Refusal::OutOfMemory,
        }
    }
}

impl From<TreeFault> for Refusal {
    ghost from_gives = { λ f r. r ≡ tree_refusal f };

    fn from(fault: TreeFault) -> Refusal {
        match fault {
            TreeFault::TooLong => Refusal::TooLong,
            TreeFault::BadPath => Refusal::BadPath,
            TreeFault::NoSuchPath => Refusal::NoSuchPath,
            TreeFault::PathThere => Refusal::PathThere,
            TreeFault::NotDir => Refusal::NotDir,
            TreeFault::NoSource => Refusal::NoSource,
            TreeFault::KindMismatch => Refusal::KindMismatch,
        }
    }
}

impl PathFault {
    /// Its number, which is the refusal's.
    pub fn number(self) -> u8
        ensures { result ≡ refusal_number (path_refusal self) }
    {
        Refusal::from(self).number()
    }
}

impl TextFault {
    /// Its number, which is the refusal's.
    pub fn number(self) -> u8
        ensures { result ≡ refusal_number (text_refusal self) }
    {
        Refusal::from(self).number()
    }
}

impl PropFault {
    /// Its number, which is the refusal's.
    pub fn number(self) -> u8
        ensures { result ≡ refusal_number (prop_refusal self) }
    {
        Refusal::from(self).number()
    }
}

impl TreeFault {
    /// Its number, which is the refusal's.
    pub fn number(self) -> u8
        ensures { result ≡ refusal_number (tree_refusal self) }
    {
        Refusal::from(self).number()
    }
}

impl fmt::Display for TreeFault {
    ghost output = { λ f. Some (refusal_text (tree_refusal f)) };

    /// The refusal's text.
    fn fmt<W: fmt::Write>(&self, f: &mut fmt::Formatter<W>) -> fmt::Result {
        write!(f, "{}", Refusal::from(*self))
    }
}

impl Error for TreeFault {}

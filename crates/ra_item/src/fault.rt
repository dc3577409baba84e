//! Why bytes are no items, an item isn't made, or the next one of a stream doesn't come.

ghost use Rattle.std.specs.Prelude.{◌≡◌};
ghost use Rattle.ra_item.specs.Makers.{number_of_fault, number_of_next};
ghost use Rattle.ra_item.specs.declared.fault.ItemFault.TheVariants.{OutOfMemory};
ghost use Rattle.ra_item.specs.declared.fault.NextFault.TheVariants.{Items};

use std::alloc::{AllocError, AllocFailed};
use thiserror::Error;

/// Why bytes are no items, or an item isn't made.
#[derive(Clone, Copy, Debug, PartialEq, Eq, Error)]
pub enum ItemFault {
    /// The bytes end inside an item (7).
    #[error("unexpected end of input")]
    Truncated,
    /// A word, a string or an item is longer than its limit (8).
    #[error("limit exceeded")]
    TooLong,
    /// The reader has refused bytes before (32).
    #[error("failed before")]
    Failed,
    /// A byte that no item has in its place (41).
    #[error("bad item")]
    BadItem,
    /// Lists stand more than 16 deep in one another (42).
    #[error("nesting too deep")]
    TooDeep,
    /// A growth was refused (70).
    #[error("out of memory")]
    OutOfMemory,
}

impl ItemFault {
    /// The number by which logs and answers name the refusal.
    pub fn number(&self) -> u32
        ensures { result ≡ number_of_fault self.now }
    {
        match self {
            ItemFault::Truncated => 7,
            ItemFault::TooLong => 8,
            ItemFault::Failed => 32,
            ItemFault::BadItem => 41,
            ItemFault::TooDeep => 42,
            ItemFault::OutOfMemory => 70,
        }
    }
}

impl From<AllocError> for ItemFault {
    ghost from_gives = { λ _ e. e ≡ OutOfMemory };

    fn from(_: AllocError) -> ItemFault {
        ItemFault::OutOfMemory
    }
}

impl<T: Drop> From<AllocFailed<T>> for ItemFault {
    ghost from_gives = { λ _ e. e ≡ OutOfMemory };

    fn from(_: AllocFailed<T>) -> ItemFault {
        ItemFault::OutOfMemory
    }
}

/// Why the next item of a stream doesn't come.
#[derive(Clone, Copy, Debug, PartialEq, Eq, Drop, Error)]
pub enum NextFault {
    /// What its bytes are refused for, or want of memory; the number is that refusal's.
    #[error("{0}")]
    Items(ItemFault),
    /// The input failed, or was read as often as one stream may be (49).
    #[error("stream failed")]
    PeerFailed,
}

impl NextFault {
    /// The number by which logs and answers name the refusal.
    pub fn number(&self) -> u32
        ensures { result ≡ number_of_next self.now }
    {
        match self {
            NextFault::Items(fault) => fault.number(),
            NextFault::PeerFailed => 49,
        }
    }
}

impl From<ItemFault> for NextFault {
    ghost from_gives = { λ f e. e ≡ Items f };

    fn from(fault: ItemFault) -> NextFault {
        NextFault::Items(fault)
    }
}

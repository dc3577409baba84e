//! The name of a shared mirror.

use std::marker::{Brand, PhantomData};
use std::sync::ledger::Ledger;
use store_share::RowName;

/// A type that names one mirror: the cells of its row, and the ledgers of its numbers and of its holder. The seats of a
/// share and its book carry it, so that a seat can't be used with another share.
pub trait MirrorName: RowName {
    ghost use Rattle.std.specs.Prelude.{ℕ};

    // The ledger of what is merged.
    ghost merged: { ℕ };

    // That of what is being copied.
    ghost copying: { ℕ };

    // That of the newest revision.
    ghost head: { ℕ };

    // That of the place of the seat that holds the lock.
    ghost holder: { ℕ };
}

impl MirrorName for Brand {
    ghost merged = { 0 };

    ghost copying = { 0 };

    ghost head = { 0 };

    ghost holder = { 0 };
}

/// The ledger of what is merged at the mirror of that name.
pub(crate) struct MergedLedger<L: MirrorName> {
    of: PhantomData<L>,
}

impl<L: MirrorName> Ledger for MergedLedger<L> {
    ghost name = { L.merged };

    ghost parts = { 1 };
}

/// That of what is being copied.
pub(crate) struct CopyingLedger<L: MirrorName> {
    of: PhantomData<L>,
}

impl<L: MirrorName> Ledger for CopyingLedger<L> {
    ghost name = { L.copying };

    ghost parts = { 1 };
}

/// That of the newest revision.
pub(crate) struct HeadLedger<L: MirrorName> {
    of: PhantomData<L>,
}

impl<L: MirrorName> Ledger for HeadLedger<L> {
    ghost name = { L.head };

    ghost parts = { 1 };
}

/// That of its holder.
pub(crate) struct HolderLedger<L: MirrorName> {
    of: PhantomData<L>,
}

impl<L: MirrorName> Ledger for HolderLedger<L> {
    ghost name = { L.holder };

    ghost parts = { 1 };
}

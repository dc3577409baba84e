//! A mirror's calls.
use crate::token::Token;
use dump_load::ChangeSet;
use node_base::{PropValue, Props, RevNo};

/// A call of a mirror. What it brings is lent: an accepted call shares it with the mirror.
#[derive(Drop)]
pub enum MirrorCall<'a> {
    /// The mirror begins: its revision 0 has the copied properties, where they come from, the identity there, and
    /// nothing merged yet.
    Init {
        url: &'a PropValue,
        uuid: &'a PropValue,
        props: &'a Props,
    },
    /// Takes the sync lock, which nobody has.
    TakeLock(&'a Token),
    /// Takes the sync lock from a job that doesn't run any more.
    StealLock(&'a Token),
    /// Gives the sync lock back.
    ReleaseLock,
    /// The revision after the head is being copied.
    SetCopying(RevNo),
    /// The revision that is being copied, with the properties that were fetched with it.
    Commit {
        number: RevNo,
        set: &'a ChangeSet,
        props: &'a Props,
    },
    /// The copied properties of a revision, beside the mirror's own.
    PutProps {
        number: RevNo,
        props: &'a Props,
    },
    /// The revision is copied whole.
    SetMerged(RevNo),
    /// Nothing is being copied any more.
    ClearCopying,
    /// What the mirror's properties say, and its head.
    Look,
}

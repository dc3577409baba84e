//! The calls of a mirror of one revision, and what comes of one where a growth is refused.

use crate::shares::some_added;
use crate::values::{some_log, some_token, some_value};
use dump_load::ChangeSet;
use node_base::{PropValue, Props, RevNo};
use std::alloc::Global;
use sync_core::{MirrorCall, Token};

/// What these calls are made of.
#[derive(Drop)]
pub(crate) struct Parts {
    url: PropValue,
    uuid: PropValue,
    props: Props,
    set: ChangeSet,
    pub(crate) token: Token,
}

/// A call: the mirror is begun, its lock is taken, revision 1 is announced, committed, its properties are put, it is
/// merged, and no longer announced; the lock is given back.
#[derive(Clone, Copy)]
pub(crate) enum Kind {
    Init,
    Take,
    Copying,
    Commit,
    Put,
    Merged,
    Clear,
    Release,
}

/// All of them.
pub(crate) const LIFE: [Kind; 8] = [
    Kind::Init,
    Kind::Take,
    Kind::Copying,
    Kind::Commit,
    Kind::Put,
    Kind::Merged,
    Kind::Clear,
    Kind::Release,
];

impl Parts {
    /// With this token, and the log `hi`; None where memory is refused.
    pub(crate) fn new(alloc: Global, token: &[u8]) -> Option<Parts> {
        Some(Parts {
            url: some_value(alloc, b"master")?,
            uuid: some_value(alloc, b"6a1f0c3e-0000-4000-8000-000000000001")?,
            props: some_log(alloc, b"hi")?,
            set: some_added(alloc, b"t")?,
            token: some_token(alloc, token)?,
        })
    }

    /// A call of these.
    pub(crate) fn call(&self, kind: Kind) -> MirrorCall<'_> {
        let number = RevNo::new(1);
        match kind {
            Kind::Init => MirrorCall::Init {
                url: &self.url,
                uuid: &self.uuid,
                props: &self.props,
            },
            Kind::Take => MirrorCall::TakeLock(&self.token),
            Kind::Copying => MirrorCall::SetCopying(number),
            Kind::Commit => MirrorCall::Commit {
                number,
                set: &self.set,
                props: &self.props,
            },
            Kind::Put => MirrorCall::PutProps {
                number,
                props: &self.props,
            },
            Kind::Merged => MirrorCall::SetMerged(number),
            Kind::Clear => MirrorCall::ClearCopying,
            Kind::Release => MirrorCall::ReleaseLock,
        }
    }
}

/// What came of a call: it was done; it was refused for want of memory, and was done when it was made again; the disk's
/// own growth was refused (31), and nothing goes on; or it isn't as it is to be.
#[derive(Clone, Copy)]
pub(crate) enum Came {
    Done,
    Over,
    Wrong,
}

/// What came of a call by the number of its refusal, by that of the same call made again, and by whether the mirror stood
/// as before between them. Behind a refusal (70) the call is done when it is made again; behind a failure of the disk
/// (31) no call is taken any more (32).
pub(crate) fn came_of(number: u8, again: u8, stands: bool) -> Came {
    match (number, again) {
        (70, 0) if stands => Came::Done,
        (31, 32) if stands => Came::Over,
        _ => Came::Wrong,
    }
}

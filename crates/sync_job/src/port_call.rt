//! What is kept of a call through the ports.
ghost use Rattle.std.specs.Prelude.{◌≡◌};
ghost use Rattle.sync_core.specs.Calls.{call_of};
ghost use Rattle.sync_core.specs.Mirror.{Init, Commit, PutProps};
ghost use Rattle.sync_job.specs.Seen.{call_seen};

use crate::report::Told;
use dump_load::ChangeSet;
use node_base::{PropValue, Props, RevNo};
use std::snapshot::Snapshot;
use sync_core::{Answer, MirrorCall, SyncFault, Token};

/// A call that was made through the ports, with its answer. What takes memory is there for clauses alone.
#[derive(Drop)]
pub enum PortCall {
    /// A call of the mirror.
    Step(SeenCall, Snapshot<Answer>),
    /// The master was asked for its identity.
    Identity(Snapshot<Answer>),
    /// The master was asked for its newest revision.
    Latest(Snapshot<Answer>),
    /// The master was asked for a revision.
    Fetch(RevNo, Snapshot<Answer>),
    /// The master was asked for the properties of a revision.
    FetchProps(RevNo, Snapshot<Answer>),
    /// The mirror refused a tree.
    NoTree(RevNo, Snapshot<SyncFault>),
    /// Something was told.
    Told(Told),
}

/// A call of the mirror, of which clauses alone see what it brings.
#[derive(Drop)]
pub enum SeenCall {
    /// The mirror begins.
    Init {
        url: Snapshot<PropValue>,
        uuid: Snapshot<PropValue>,
        props: Snapshot<Props>,
    },
    /// The lock is taken.
    TakeLock(Snapshot<Token>),
    /// The lock is taken from another.
    StealLock(Snapshot<Token>),
    /// The lock is given back.
    ReleaseLock,
    /// A revision is being copied.
    SetCopying(RevNo),
    /// A revision.
    Commit {
        number: RevNo,
        set: Snapshot<ChangeSet>,
        props: Snapshot<Props>,
    },
    /// The properties of a revision.
    PutProps {
        number: RevNo,
        props: Snapshot<Props>,
    },
    /// A revision is copied whole.
    SetMerged(RevNo),
    /// Nothing is being copied.
    ClearCopying,
    /// How the mirror stands.
    Look,
}

impl SeenCall {
    /// The call, seen.
    pub(crate) fn of(call: &MirrorCall<'_>) -> SeenCall
        ensures { call_seen result ≡ call_of call.now }
    {
        match call {
            MirrorCall::Init { url, uuid, props } => seen_init(url, uuid, props),
            MirrorCall::TakeLock(token) => SeenCall::TakeLock(seen_token(token)),
            MirrorCall::StealLock(token) => SeenCall::StealLock(seen_token(token)),
            MirrorCall::ReleaseLock => SeenCall::ReleaseLock,
            MirrorCall::SetCopying(number) => SeenCall::SetCopying(*number),
            MirrorCall::Commit { number, set, props } => seen_commit(*number, set, props),
            MirrorCall::PutProps { number, props } => seen_props(*number, props),
            MirrorCall::SetMerged(number) => SeenCall::SetMerged(*number),
            MirrorCall::ClearCopying => SeenCall::ClearCopying,
            MirrorCall::Look => SeenCall::Look,
        }
    }
}

fn seen_token(token: &Token) -> Snapshot<Token>
    ensures { result.value ≡ token.now }
{
    Snapshot::of(token)
}

fn seen_init(url: &PropValue, uuid: &PropValue, props: &Props) -> SeenCall
    ensures { call_seen result ≡ Init url.now uuid.now props.now }
{
    SeenCall::Init {
        url: Snapshot::of(url),
        uuid: Snapshot::of(uuid),
        props: Snapshot::of(props),
    }
}

fn seen_commit(number: RevNo, set: &ChangeSet, props: &Props) -> SeenCall
    ensures { call_seen result ≡ Commit number set.now props.now }
{
    SeenCall::Commit {
        number,
        set: Snapshot::of(set),
        props: Snapshot::of(props),
    }
}

fn seen_props(number: RevNo, props: &Props) -> SeenCall
    ensures { call_seen result ≡ PutProps number props.now }
{
    SeenCall::PutProps {
        number,
        props: Snapshot::of(props),
    }
}

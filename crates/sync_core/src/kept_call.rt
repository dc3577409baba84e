//! Calls that own what they bring.
ghost use Rattle.std.specs.Prelude.{◌≡◌, IfOk};
ghost use Rattle.sync_core.specs.Calls.{call_of};
ghost use Rattle.sync_core.specs.Copies.{call_in};
ghost use Rattle.sync_core.specs.Mirror.{Init, Commit, PutProps};

use crate::call::MirrorCall;
use crate::token::Token;
use dump_load::ChangeSet;
use node_base::{PropValue, Props, RevNo};
use std::alloc::{AllocError, Global};

/// A call of a mirror as a list of calls keeps it: its texts are copied, its properties and its set shared.
#[derive(Drop)]
pub enum KeptCall {
    Init {
        url: PropValue,
        uuid: PropValue,
        props: Props,
    },
    TakeLock(Token),
    StealLock(Token),
    ReleaseLock,
    SetCopying(RevNo),
    Commit {
        number: RevNo,
        set: ChangeSet,
        props: Props,
    },
    PutProps {
        number: RevNo,
        props: Props,
    },
    SetMerged(RevNo),
    ClearCopying,
    Look,
}

impl KeptCall {
    /// The call, kept.
    pub fn of(alloc: Global, call: &MirrorCall<'_>) -> Result<KeptCall, AllocError>
        ensures { IfOk result (λ k. call_in k ≡ call_of call.now) }
    {
        match call {
            MirrorCall::Init { url, uuid, props } => kept_init(alloc, url, uuid, props),
            MirrorCall::TakeLock(token) => Ok(KeptCall::TakeLock(token.copy(alloc)?)),
            MirrorCall::StealLock(token) => Ok(KeptCall::StealLock(token.copy(alloc)?)),
            MirrorCall::ReleaseLock => Ok(KeptCall::ReleaseLock),
            MirrorCall::SetCopying(number) => Ok(KeptCall::SetCopying(*number)),
            MirrorCall::Commit { number, set, props } => kept_commit(alloc, *number, set, props),
            MirrorCall::PutProps { number, props } => kept_props(*number, props),
            MirrorCall::SetMerged(number) => Ok(KeptCall::SetMerged(*number)),
            MirrorCall::ClearCopying => Ok(KeptCall::ClearCopying),
            MirrorCall::Look => Ok(KeptCall::Look),
        }
    }

    /// The call that it is, which lends what it brings.
    pub fn lent(&self) -> MirrorCall<'_>
        ensures { call_of result ≡ call_in self.now }
    {
        match self {
            KeptCall::Init { url, uuid, props } => MirrorCall::Init { url, uuid, props },
            KeptCall::TakeLock(token) => MirrorCall::TakeLock(token),
            KeptCall::StealLock(token) => MirrorCall::StealLock(token),
            KeptCall::ReleaseLock => MirrorCall::ReleaseLock,
            KeptCall::SetCopying(number) => MirrorCall::SetCopying(*number),
            KeptCall::Commit { number, set, props } => MirrorCall::Commit {
                number: *number,
                set,
                props,
            },
            KeptCall::PutProps { number, props } => MirrorCall::PutProps {
                number: *number,
                props,
            },
            KeptCall::SetMerged(number) => MirrorCall::SetMerged(*number),
            KeptCall::ClearCopying => MirrorCall::ClearCopying,
            KeptCall::Look => MirrorCall::Look,
        }
    }

    /// The same call once more.
    pub fn copy(&self, alloc: Global) -> Result<KeptCall, AllocError>
        ensures { IfOk result (λ k. call_in k ≡ call_in self.now) }
    {
        KeptCall::of(alloc, &self.lent())
    }
}

fn kept_init(
    alloc: Global,
    url: &PropValue,
    uuid: &PropValue,
    props: &Props,
) -> Result<KeptCall, AllocError>
    ensures { IfOk result (λ k. call_in k ≡ Init url.now uuid.now props.now) }
{
    Ok(KeptCall::Init {
        url: url.copy(alloc)?,
        uuid: uuid.copy(alloc)?,
        props: props.share()?,
    })
}

fn kept_commit(
    alloc: Global,
    number: RevNo,
    set: &ChangeSet,
    props: &Props,
) -> Result<KeptCall, AllocError>
    ensures { IfOk result (λ k. call_in k ≡ Commit number set.now props.now) }
{
    Ok(KeptCall::Commit {
        number,
        set: set.share(alloc)?,
        props: props.share()?,
    })
}

fn kept_props(number: RevNo, props: &Props) -> Result<KeptCall, AllocError>
    ensures { IfOk result (λ k. call_in k ≡ PutProps number props.now) }
{
    Ok(KeptCall::PutProps {
        number,
        props: props.share()?,
    })
}

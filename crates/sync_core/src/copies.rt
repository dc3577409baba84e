//! Copies of answers, standings and refusals. They share the sets and maps of what they copy.
ghost use Rattle.std.specs.Prelude.{◌≡◌, IfOk, string_bytes};
ghost use Rattle.node_base.specs.Refusals.{refusal_number, refusal_text};
ghost use Rattle.sync_core.specs.Copies.{outcome_of, IsToldAs};

use crate::answer::Answer;
use crate::fault::SyncFault;
use crate::standing::Standing;
use node_base::{PropValue, Refusal};
use std::alloc::{AllocError, Global};

impl Answer {
    /// The same answer once more; of a refusal the number and the text are the same.
    pub fn copy(&self, alloc: Global) -> Result<Answer, AllocError>
        ensures { IfOk result (λ a. outcome_of a ≡ outcome_of self.now) }
    {
        match self {
            Answer::Done => Ok(Answer::Done),
            Answer::Seen(standing) => Ok(Answer::Seen(standing.copy(alloc)?)),
            Answer::Identity(uuid) => Ok(Answer::Identity(uuid.copy(alloc)?)),
            Answer::Latest(number) => Ok(Answer::Latest(*number)),
            Answer::Revision(set, props) => Ok(Answer::Revision(set.share(alloc)?, props.share()?)),
            Answer::Map(props) => Ok(Answer::Map(props.share()?)),
            Answer::Refused(fault) => Ok(Answer::Refused(fault.copy(alloc)?)),
            Answer::Failed(text) => Ok(Answer::Failed(copy_text(alloc, text)?)),
        }
    }
}

impl Standing {
    /// The same standing once more.
    pub fn copy(&self, alloc: Global) -> Result<Standing, AllocError>
        ensures { IfOk result (λ s. s ≡ self.now) }
    {
        let url = copy_value(alloc, &self.url)?;
        let uuid = copy_value(alloc, &self.uuid)?;
        let merged_text = copy_value(alloc, &self.merged_text)?;
        let copying_text = copy_value(alloc, &self.copying_text)?;
        let lock = copy_value(alloc, &self.lock)?;
        Ok(Standing {
            url,
            uuid,
            merged: self.merged,
            copying: self.copying,
            merged_text,
            copying_text,
            lock,
            head: self.head,
        })
    }
}

impl SyncFault {
    /// The same refusal once more, with its number and its text.
    pub fn copy(&self, alloc: Global) -> Result<SyncFault, AllocError>
        ensures { IfOk result (λ f. IsToldAs f self.now) }
    {
        match self {
            SyncFault::NotInitialised => Ok(SyncFault::NotInitialised),
            SyncFault::AlreadyInitialised => Ok(SyncFault::AlreadyInitialised),
            SyncFault::NotEmpty => Ok(SyncFault::NotEmpty),
            SyncFault::LockHeld(token) => Ok(SyncFault::LockHeld(token.copy(alloc)?)),
            SyncFault::HolderRunning(token) => Ok(SyncFault::HolderRunning(token.copy(alloc)?)),
            SyncFault::WrongMaster => Ok(SyncFault::WrongMaster),
            SyncFault::Inconsistent {
                merged,
                copying,
                head,
            } => Ok(SyncFault::Inconsistent {
                merged: merged.copy(alloc)?,
                copying: copying.copy(alloc)?,
                head: *head,
            }),
            SyncFault::NotYetCopied(number) => Ok(SyncFault::NotYetCopied(*number)),
            SyncFault::NotHolder => Ok(SyncFault::NotHolder),
            SyncFault::MasterFailed(text) => Ok(SyncFault::MasterFailed(copy_text(alloc, text)?)),
            SyncFault::OutOfTurn => Ok(SyncFault::OutOfTurn),
            SyncFault::Other(refusal) => Ok(SyncFault::Other(copy_refusal(alloc, refusal)?)),
            SyncFault::OutOfMemory => Ok(SyncFault::OutOfMemory),
        }
    }
}

fn copy_value(alloc: Global, value: &Option<PropValue>) -> Result<Option<PropValue>, AllocError>
    ensures { IfOk result (λ v. v ≡ value.now) }
{
    match value {
        Some(value) => Ok(Some(value.copy(alloc)?)),
        None => Ok(None),
    }
}

fn copy_text(alloc: Global, text: &String) -> Result<String, AllocError>
    ensures { IfOk result (λ t. string_bytes t ≡ string_bytes text.now) }
{
    String::from_str(alloc, text.as_str())
}

fn copy_bytes(alloc: Global, bytes: &Vec<u8>) -> Result<Vec<u8>, AllocError>
    ensures { IfOk result (λ v. v.items ≡ bytes.now.items) }
{
    Vec::from_slice(alloc, bytes.as_slice())
}

// The refusal once more.
fn copy_refusal(alloc: Global, refusal: &Refusal) -> Result<Refusal, AllocError>
    ensures number { IfOk result (λ r. refusal_number r ≡ refusal_number refusal.now) }
    ensures text { IfOk result (λ r. refusal_text r ≡ refusal_text refusal.now) }
{
    match refusal {
        Refusal::LockHeld(token) => Ok(Refusal::LockHeld(copy_bytes(alloc, token)?)),
        Refusal::HolderRunning(token) => Ok(Refusal::HolderRunning(copy_bytes(alloc, token)?)),
        Refusal::MasterFailed(text) => Ok(Refusal::MasterFailed(copy_text(alloc, text)?)),
        Refusal::Behind(head) => Ok(Refusal::Behind(*head)),
        Refusal::Damaged(entry) => Ok(Refusal::Damaged(*entry)),
        Refusal::Inconsistent {
            merged,
            copying,
            head,
        } => Ok(Refusal::Inconsistent {
            merged: merged.copy(alloc)?,
            copying: copying.copy(alloc)?,
            head: *head,
        }),
        Refusal::NotYetCopied(number) => Ok(Refusal::NotYetCopied(*number)),
        Refusal::BadVersion => Ok(Refusal::BadVersion),
        Refusal::BadHeader => Ok(Refusal::BadHeader),
        Refusal::BadNumber => Ok(Refusal::BadNumber),
        Refusal::BadLength => Ok(Refusal::BadLength),
        Refusal::BadProps => Ok(Refusal::BadProps),
        Refusal::BadSum => Ok(Refusal::BadSum),
        Refusal::Truncated => Ok(Refusal::Truncated),
        Refusal::TooLong => Ok(Refusal::TooLong),
        Refusal::TextDelta => Ok(Refusal::TextDelta),
        Refusal::BadPath => Ok(Refusal::BadPath),
        Refusal::NoSuchPath => Ok(Refusal::NoSuchPath),
        Refusal::PathThere => Ok(Refusal::PathThere),
        Refusal::NotDir => Ok(Refusal::NotDir),
        Refusal::NoSource => Ok(Refusal::NoSource),
        Refusal::OutOfOrder => Ok(Refusal::OutOfOrder),
        Refusal::WrongNumber => Ok(Refusal::WrongNumber),
        Refusal::KindMismatch => Ok(Refusal::KindMismatch),
        Refusal::NoSuchRevision => Ok(Refusal::NoSuchRevision),
        Refusal::BaseMismatch => Ok(Refusal::BaseMismatch),
        Refusal::Full => Ok(Refusal::Full),
        Refusal::ReadOnly => Ok(Refusal::ReadOnly),
        Refusal::DeviceFailed => Ok(Refusal::DeviceFailed),
        Refusal::Failed => Ok(Refusal::Failed),
        Refusal::NoRepository => Ok(Refusal::NoRepository),
        Refusal::ThereAlready => Ok(Refusal::ThereAlready),
        Refusal::LogFull => Ok(Refusal::LogFull),
        Refusal::BadItem => Ok(Refusal::BadItem),
        Refusal::TooDeep => Ok(Refusal::TooDeep),
        Refusal::ReplayForm => Ok(Refusal::ReplayForm),
        Refusal::BadWindow => Ok(Refusal::BadWindow),
        Refusal::CopyWindow => Ok(Refusal::CopyWindow),
        Refusal::BadToken => Ok(Refusal::BadToken),
        Refusal::UnknownCommand => Ok(Refusal::UnknownCommand),
        Refusal::BadShape => Ok(Refusal::BadShape),
        Refusal::PeerFailed => Ok(Refusal::PeerFailed),
        Refusal::NotInitialised => Ok(Refusal::NotInitialised),
        Refusal::AlreadyInitialised => Ok(Refusal::AlreadyInitialised),
        Refusal::NotEmpty => Ok(Refusal::NotEmpty),
        Refusal::WrongMaster => Ok(Refusal::WrongMaster),
        Refusal::NotHolder => Ok(Refusal::NotHolder),
        Refusal::OutOfTurn => Ok(Refusal::OutOfTurn),
        Refusal::OutOfMemory => Ok(Refusal::OutOfMemory),
    }
}

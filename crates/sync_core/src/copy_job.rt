//! The job that copies properties again.
ghost use Rattle.std.specs.Prelude.{◌≡◌, ◌<◌, ◌+◌};
ghost use Rattle.sync_core.specs.Jobs.{CopyProps, begun};
ghost use Rattle.sync_core.specs.Deeds.{deed_of};
ghost use Rattle.sync_core.specs.CopyTable as table;
ghost use Rattle.sync_core.specs.CopyFollows.{FollowsCopy};

use crate::action::Action;
use crate::answer::Answer;
use crate::call::MirrorCall;
use crate::ending::Ending;
use crate::fault::SyncFault;
use crate::identity::is_identity;
use crate::number::Number;
use crate::shape::shape_of;
use crate::standing::Standing;
use crate::token::Token;
use crate::told_number::told_of;
use node_base::{PropValue, Props, RevNo};

/// Where a copying job is.
#[derive(Drop)]
enum CopyPhase {
    /// Takes the lock.
    Lock,
    /// Looks how the mirror stands.
    Look,
    /// Asks who the master is.
    Who {
        merged: Number,
        uuid: Option<PropValue>,
    },
    /// Fetches the properties of the revision.
    FetchProps(RevNo),
    /// Puts them.
    Put(RevNo, Props),
    /// Gives the lock back, and then ends so.
    Release(Ending),
    /// Has ended so.
    End(Ending),
}

/// A job that copies the properties of a range of merged revisions again: it takes the mirror's lock, looks how the
/// mirror stands, and fetches and puts the properties of each revision in order.
#[derive(Drop)]
pub struct CopyJob {
    token: Token,
    low: RevNo,
    high: RevNo,
    phase: CopyPhase,
}

impl CopyJob {
    /// A job that copies the properties of the revisions from `low` to `high`, and takes the lock with the token.
    pub fn new(token: Token, low: RevNo, high: RevNo) -> CopyJob
        ensures start { result ≡ table.start token low high }
        ensures begun { FollowsCopy (begun (CopyProps token)) result }
    {
        CopyJob {
            token,
            low,
            high,
            phase: CopyPhase::Lock,
        }
    }

    /// What it does next.
    pub fn decide(&self) -> Action<'_>
        ensures table { deed_of result ≡ table.next_deed self.now }
    {
        match &self.phase {
            CopyPhase::Lock => Action::Call(MirrorCall::TakeLock(&self.token)),
            CopyPhase::Look => Action::Call(MirrorCall::Look),
            CopyPhase::Who { .. } => Action::AskIdentity,
            CopyPhase::FetchProps(n) => Action::FetchProps(*n),
            CopyPhase::Put(n, props) => Action::Call(MirrorCall::PutProps { number: *n, props }),
            CopyPhase::Release(_) => Action::Call(MirrorCall::ReleaseLock),
            CopyPhase::End(_) => Action::End,
        }
    }

    /// The job after the answer to what it did.
    pub fn absorb(self, answer: Answer) -> CopyJob
        ensures table { result ≡ table.after self answer }
    {
        let CopyJob {
            token,
            low,
            high,
            phase,
        } = self;
        let phase = match phase {
            CopyPhase::Lock => after_lock(answer),
            CopyPhase::Look => after_look(answer),
            CopyPhase::Who { merged, uuid } => after_who(low, high, merged, uuid, answer),
            CopyPhase::FetchProps(n) => after_fetch_props(n, answer),
            CopyPhase::Put(n, _) => after_put(high, n, answer),
            CopyPhase::Release(ending) => CopyPhase::End(ending.released(answer)),
            CopyPhase::End(ending) => CopyPhase::End(ending),
        };
        CopyJob {
            token,
            low,
            high,
            phase,
        }
    }

    /// How it ended; None where it goes on.
    pub fn ending(self) -> Option<Ending>
        ensures { result ≡ table.ending_of self }
    {
        let CopyJob {
            token: _,
            low: _,
            high: _,
            phase,
        } = self;
        match phase {
            CopyPhase::End(ending) => Some(ending),
            _ => None,
        }
    }
}

// Gives the lock back and ends with the refusal.
fn give_up(fault: SyncFault) -> CopyPhase
    ensures { result ≡ table.give_up fault }
{
    CopyPhase::Release(Ending::Refused(fault))
}

fn after_lock(answer: Answer) -> CopyPhase
    ensures { result ≡ table.after_lock answer }
{
    match answer {
        Answer::Done => CopyPhase::Look,
        other => CopyPhase::End(Ending::Refused(other.fault())),
    }
}

fn after_look(answer: Answer) -> CopyPhase
    ensures { result ≡ table.after_look answer }
{
    match answer {
        Answer::Seen(standing) => looked(standing),
        other => give_up(other.fault()),
    }
}

// A mirror that isn't initialized, or in no shape, is left.
fn looked(standing: Standing) -> CopyPhase
    ensures { result ≡ table.looked standing }
{
    let Standing {
        url,
        uuid,
        merged,
        copying,
        merged_text,
        copying_text,
        lock: _,
        head,
    } = standing;
    if url.is_none() {
        return give_up(SyncFault::NotInitialised);
    }
    match shape_of(merged, copying, head) {
        Some(_) => CopyPhase::Who { merged, uuid },
        None => give_up(SyncFault::Inconsistent {
            merged: told_of(merged, merged_text),
            copying: told_of(copying, copying_text),
            head,
        }),
    }
}

fn after_who(
    low: RevNo,
    high: RevNo,
    merged: Number,
    uuid: Option<PropValue>,
    answer: Answer,
) -> CopyPhase
    ensures { result ≡ table.after_who low high merged uuid answer }
{
    match answer {
        Answer::Identity(found) => {
            if is_identity(&uuid, &found) {
                begin(low, high, merged)
            } else {
                give_up(SyncFault::WrongMaster)
            }
        }
        other => give_up(other.fault()),
    }
}

// The first revision of the range, where all of it is merged.
fn begin(low: RevNo, high: RevNo, merged: Number) -> CopyPhase
    ensures { result ≡ table.begin low high merged }
{
    if !merged.reaches(high) {
        give_up(SyncFault::NotYetCopied(high))
    } else if low <= high {
        CopyPhase::FetchProps(low)
    } else {
        CopyPhase::Release(Ending::Fine)
    }
}

fn after_fetch_props(number: RevNo, answer: Answer) -> CopyPhase
    ensures { result ≡ table.after_fetch_props number answer }
{
    match answer {
        Answer::Map(props) => CopyPhase::Put(number, props),
        other => give_up(other.fault()),
    }
}

fn after_put(high: RevNo, number: RevNo, answer: Answer) -> CopyPhase
    ensures { result ≡ table.after_put high number answer }
{
    match answer {
        Answer::Done => next(high, number),
        other => give_up(other.fault()),
    }
}

// The revision after one, where the range has it.
fn next(high: RevNo, number: RevNo) -> CopyPhase
    ensures { result ≡ table.next high number }
{
    if number < high {
        let _ = high.get();
        CopyPhase::FetchProps(RevNo::new(number.get() + 1))
    } else {
        CopyPhase::Release(Ending::Fine)
    }
}

//! The job that brings a mirror up to its master.
ghost use Rattle.std.specs.Prelude.{◌≡◌, ◌+◌, ◌<◌};
ghost use Rattle.sync_core.specs.Jobs.{Sync, begun};
ghost use Rattle.sync_core.specs.Calls.{call_of};
ghost use Rattle.sync_core.specs.Deeds.{deed_of};
ghost use Rattle.sync_core.specs.SyncTable as table;
ghost use Rattle.sync_core.specs.SyncFollows.{FollowsSync};

use crate::action::Action;
use crate::answer::Answer;
use crate::call::MirrorCall;
use crate::ending::Ending;
use crate::fault::SyncFault;
use crate::identity::is_identity;
use crate::number::Number;
use crate::resting::Resting;
use crate::shape::shape_of;
use crate::standing::Standing;
use crate::token::Token;
use crate::told_number::told_of;
use dump_load::ChangeSet;
use node_base::{PropValue, Props, RevNo, limits};

/// What a sync job knows of its mirror, by its look and its own accepted calls since, and of the master.
#[derive(Clone, Copy)]
struct Known {
    merged: Number,
    copying: Number,
    head: RevNo,
    latest: Option<RevNo>,
}

/// Where a sync job is.
#[derive(Drop)]
enum SyncPhase {
    /// Takes the lock, or steals it.
    Lock {
        token: Token,
        steal: bool,
    },
    /// Looks how the mirror stands.
    Look,
    /// Asks who the master is.
    Who {
        shape: Resting,
        uuid: Option<PropValue>,
    },
    /// Asks for the master's newest revision, once.
    Latest,
    /// Notes that the revision is being copied.
    SetCopying(RevNo),
    /// Fetches the revision.
    Fetch(RevNo),
    /// Commits it.
    Commit(RevNo, ChangeSet, Props),
    /// Fetches its properties once more.
    FetchProps(RevNo),
    /// Puts them.
    Put(RevNo, Props),
    /// Notes that the revision is merged.
    Merge(RevNo),
    /// Notes that nothing is being copied.
    Clear,
    /// Gives the lock back, and then ends so.
    Release(Ending),
    /// Has ended so.
    End(Ending),
}

/// A sync job: it takes the mirror's lock, looks how the mirror stands, goes on where an earlier job stopped, and
/// copies one revision after another until the mirror has what the master had when it was asked.
#[derive(Drop)]
pub struct SyncJob {
    known: Known,
    phase: SyncPhase,
}

impl SyncJob {
    /// A job that takes the lock with the token, or steals it where that is asked.
    pub fn new(token: Token, steal: bool) -> SyncJob
        ensures start { result ≡ table.start token steal }
        ensures begun { FollowsSync (begun (Sync token steal)) result }
    {
        SyncJob {
            known: Known {
                merged: Number::Absent,
                copying: Number::Absent,
                head: RevNo::ZERO,
                latest: None,
            },
            phase: SyncPhase::Lock { token, steal },
        }
    }

    /// What it does next.
    pub fn decide(&self) -> Action<'_>
        ensures table { deed_of result ≡ table.next_deed self.now }
    {
        match &self.phase {
            SyncPhase::Lock { token, steal } => Action::Call(lock_call(token, *steal)),
            SyncPhase::Look => Action::Call(MirrorCall::Look),
            SyncPhase::Who { .. } => Action::AskIdentity,
            SyncPhase::Latest => Action::AskLatest,
            SyncPhase::SetCopying(n) => Action::Call(MirrorCall::SetCopying(*n)),
            SyncPhase::Fetch(n) => Action::Fetch(*n),
            SyncPhase::Commit(n, set, props) => Action::Call(MirrorCall::Commit {
                number: *n,
                set,
                props,
            }),
            SyncPhase::FetchProps(n) => Action::FetchProps(*n),
            SyncPhase::Put(n, props) => Action::Call(MirrorCall::PutProps { number: *n, props }),
            SyncPhase::Merge(n) => Action::Call(MirrorCall::SetMerged(*n)),
            SyncPhase::Clear => Action::Call(MirrorCall::ClearCopying),
            SyncPhase::Release(_) => Action::Call(MirrorCall::ReleaseLock),
            SyncPhase::End(_) => Action::End,
        }
    }

    /// The job after the answer to what it did.
    pub fn absorb(self, answer: Answer) -> SyncJob
        ensures table { result ≡ table.after self answer }
    {
        let SyncJob { known, phase } = self;
        match phase {
            SyncPhase::Lock { .. } => after_lock(known, answer),
            SyncPhase::Look => after_look(known, answer),
            SyncPhase::Who { shape, uuid } => after_who(known, shape, uuid, answer),
            SyncPhase::Latest => after_latest(known, answer),
            SyncPhase::SetCopying(n) => after_set_copying(known, n, answer),
            SyncPhase::Fetch(n) => after_fetch(known, n, answer),
            SyncPhase::Commit(n, _, _) => after_commit(known, n, answer),
            SyncPhase::FetchProps(n) => after_fetch_props(known, n, answer),
            SyncPhase::Put(n, _) => after_put(known, n, answer),
            SyncPhase::Merge(n) => after_merge(known, n, answer),
            SyncPhase::Clear => after_clear(known, answer),
            SyncPhase::Release(ending) => at(known, SyncPhase::End(ending.released(answer))),
            SyncPhase::End(ending) => at(known, SyncPhase::End(ending)),
        }
    }

    /// How it ended; None where it goes on.
    pub fn ending(self) -> Option<Ending>
        ensures { result ≡ table.ending_of self }
    {
        match self.phase {
            SyncPhase::End(ending) => Some(ending),
            _ => None,
        }
    }
}

// The call that takes the lock.
fn lock_call(token: &Token, steal: bool) -> MirrorCall<'_>
    ensures { call_of result ≡ table.lock_call token.now steal }
{
    if steal {
        MirrorCall::StealLock(token)
    } else {
        MirrorCall::TakeLock(token)
    }
}

fn at(known: Known, phase: SyncPhase) -> SyncJob
    ensures { result ≡ table.at known phase }
{
    SyncJob { known, phase }
}

// Gives the lock back and ends with the refusal.
fn give_up(known: Known, fault: SyncFault) -> SyncJob
    ensures { result ≡ table.give_up known fault }
{
    at(known, SyncPhase::Release(Ending::Refused(fault)))
}

fn after_lock(known: Known, answer: Answer) -> SyncJob
    ensures { result ≡ table.after_lock known answer }
{
    match answer {
        Answer::Done => at(known, SyncPhase::Look),
        other => at(known, SyncPhase::End(Ending::Refused(other.fault()))),
    }
}

fn after_look(known: Known, answer: Answer) -> SyncJob
    ensures { result ≡ table.after_look known answer }
{
    match answer {
        Answer::Seen(standing) => {
            let known = Known {
                merged: standing.merged,
                copying: standing.copying,
                head: standing.head,
                latest: known.latest,
            };
            looked(known, standing)
        }
        other => give_up(known, other.fault()),
    }
}

// Goes on from the shape in which the mirror rests.
fn looked(known: Known, standing: Standing) -> SyncJob
    ensures { result ≡ table.looked known standing }
{
    let Standing {
        url,
        uuid,
        merged,
        copying,
        merged_text,
        copying_text,
        lock: _,
        head,
    } = standing;
    if url.is_none() {
        return give_up(known, SyncFault::NotInitialised);
    }
    match shape_of(merged, copying, head) {
        Some(shape) => at(known, SyncPhase::Who { shape, uuid }),
        None => give_up(
            known,
            SyncFault::Inconsistent {
                merged: told_of(merged, merged_text),
                copying: told_of(copying, copying_text),
                head,
            },
        ),
    }
}

fn after_who(known: Known, shape: Resting, uuid: Option<PropValue>, answer: Answer) -> SyncJob
    ensures { result ≡ table.after_who known shape uuid answer }
{
    match answer {
        Answer::Identity(found) => {
            if is_identity(&uuid, &found) {
                at(known, resumed(shape, known.head))
            } else {
                give_up(known, SyncFault::WrongMaster)
            }
        }
        other => give_up(known, other.fault()),
    }
}

// Where an earlier job stopped.
fn resumed(shape: Resting, head: RevNo) -> SyncPhase
    ensures { result ≡ table.resumed shape head }
{
    match shape {
        Resting::Idle => SyncPhase::Latest,
        Resting::Copying(_) => SyncPhase::Latest,
        Resting::Committed(_) => SyncPhase::FetchProps(head),
        Resting::Merged => SyncPhase::Clear,
    }
}

fn after_latest(known: Known, answer: Answer) -> SyncJob
    ensures { result ≡ table.after_latest known answer }
{
    match answer {
        Answer::Latest(latest) => {
            let known = Known {
                latest: Some(latest),
                ..known
            };
            let phase = next(&known, latest);
            at(known, phase)
        }
        other => give_up(known, other.fault()),
    }
}

// The next revision: one that is noted as being copied is fetched; else one is begun, where the master has more.
fn next(known: &Known, latest: RevNo) -> SyncPhase
    ensures { result ≡ table.next known.now latest }
{
    if known.copying.is_absent() {
        if known.head >= latest {
            return SyncPhase::Release(Ending::Fine);
        }
        SyncPhase::SetCopying(number_after(known.head, latest))
    } else {
        let last = RevNo::new(limits::REVISION);
        if known.head >= last {
            return SyncPhase::Release(Ending::Refused(inconsistent(known)));
        }
        SyncPhase::Fetch(number_after(known.head, last))
    }
}

// The number after one that is below another.
fn number_after(number: RevNo, limit: RevNo) -> RevNo
    requires { number < limit }
    ensures { result ≡ number + 1 }
{
    let _ = limit.get();
    RevNo::new(number.get() + 1)
}

// The number after the head can't be copied, since no revision has it.
fn inconsistent(known: &Known) -> SyncFault
    ensures { result ≡ table.inconsistent known.now }
{
    SyncFault::Inconsistent {
        merged: told_of(known.merged, None),
        copying: told_of(known.copying, None),
        head: known.head,
    }
}

fn after_set_copying(known: Known, number: RevNo, answer: Answer) -> SyncJob
    ensures { result ≡ table.after_set_copying known number answer }
{
    match answer {
        Answer::Done => at(
            Known {
                copying: Number::Spelt(u64::from(number.get())),
                ..known
            },
            SyncPhase::Fetch(number),
        ),
        other => give_up(known, other.fault()),
    }
}

fn after_fetch(known: Known, number: RevNo, answer: Answer) -> SyncJob
    ensures { result ≡ table.after_fetch known number answer }
{
    match answer {
        Answer::Revision(set, props) => at(known, SyncPhase::Commit(number, set, props)),
        other => give_up(known, other.fault()),
    }
}

fn after_commit(known: Known, number: RevNo, answer: Answer) -> SyncJob
    ensures { result ≡ table.after_commit known number answer }
{
    match answer {
        Answer::Done => at(
            Known {
                head: number,
                ..known
            },
            SyncPhase::FetchProps(number),
        ),
        other => give_up(known, other.fault()),
    }
}

fn after_fetch_props(known: Known, number: RevNo, answer: Answer) -> SyncJob
    ensures { result ≡ table.after_fetch_props known number answer }
{
    match answer {
        Answer::Map(props) => at(known, SyncPhase::Put(number, props)),
        other => give_up(known, other.fault()),
    }
}

fn after_put(known: Known, number: RevNo, answer: Answer) -> SyncJob
    ensures { result ≡ table.after_put known number answer }
{
    match answer {
        Answer::Done => at(known, SyncPhase::Merge(number)),
        other => give_up(known, other.fault()),
    }
}

fn after_merge(known: Known, number: RevNo, answer: Answer) -> SyncJob
    ensures { result ≡ table.after_merge known number answer }
{
    match answer {
        Answer::Done => at(
            Known {
                merged: Number::Spelt(u64::from(number.get())),
                ..known
            },
            SyncPhase::Clear,
        ),
        other => give_up(known, other.fault()),
    }
}

fn after_clear(known: Known, answer: Answer) -> SyncJob
    ensures { result ≡ table.after_clear known answer }
{
    match answer {
        Answer::Done => cleared(Known {
            copying: Number::Absent,
            ..known
        }),
        other => give_up(known, other.fault()),
    }
}

// The master is asked for its newest revision once.
fn cleared(known: Known) -> SyncJob
    ensures { result ≡ table.cleared known }
{
    match known.latest {
        Some(latest) => {
            let phase = next(&known, latest);
            at(known, phase)
        }
        None => at(known, SyncPhase::Latest),
    }
}

//! Jobs.
ghost use Rattle.std.specs.Prelude.{◌≡◌, ◌≢◌, ◌<◌, ℕ};
ghost use Rattle.sync_core.specs.Jobs.{Job, Initialise, Sync, CopyProps, begun};
ghost use Rattle.sync_core.specs.Deeds.{Ends, deed_of, heard, IsLawfulDeed};
ghost use Rattle.sync_core.specs.Measures.{left, CanBe};
ghost use Rattle.sync_core.specs.States.{init_start, sync_start, copy_start, deed_in, after, ending_of, Follows};
ghost use Rattle.sync_core.specs.States.{IsAskedFor};

use crate::action::Action;
use crate::answer::Answer;
use crate::copy_job::CopyJob;
use crate::ending::Ending;
use crate::init_job::InitJob;
use crate::sync_job::SyncJob;
use crate::token::Token;
use node_base::{PropValue, RevNo};

/// A job, as far as it has come.
#[derive(Drop)]
pub enum JobState {
    /// One that initializes a mirror.
    Init(InitJob),
    /// One that brings a mirror up to its master.
    Sync(SyncJob),
    /// One that copies properties again.
    Copy(CopyJob),
}

impl JobState {
    /// A job that makes a mirror one of the master, which is reached by that URL.
    pub fn init(url: PropValue) -> JobState
        ensures start { result ≡ init_start url }
        ensures begun { Follows (begun (Initialise url)) result }
    {
        JobState::Init(InitJob::new(url))
    }

    /// A job that brings a mirror up to its master. It takes the lock with the token, or steals it where that is asked.
    pub fn sync(token: Token, steal: bool) -> JobState
        ensures start { result ≡ sync_start token steal }
        ensures begun { Follows (begun (Sync token steal)) result }
    {
        JobState::Sync(SyncJob::new(token, steal))
    }

    /// A job that copies the properties of the revisions from `low` to `high` again. It takes the lock with the token.
    pub fn copy_props(token: Token, low: RevNo, high: RevNo) -> JobState
        ensures start { result ≡ copy_start token low high }
        ensures begun { Follows (begun (CopyProps token)) result }
    {
        JobState::Copy(CopyJob::new(token, low, high))
    }

    /// How the job ended; None where it goes on.
    pub fn ending(self) -> Option<Ending>
        ensures { result ≡ ending_of self }
    {
        match self {
            JobState::Init(job) => job.ending(),
            JobState::Sync(job) => job.ending(),
            JobState::Copy(job) => job.ending(),
        }
    }
}

/// What a job does next, by the table of its phases. It takes no memory.
///
/// Whatever a job has heard that led to the state, a call of the mirror is one that the job may make then; and a
/// revision or its properties are asked for only by a number that is the job's turn.
#[tactic(auto, using(crate::proofs::StateLemmas::lawful_by, crate::proofs::StateLemmas::asked_by))]
pub fn decide(state: &JobState) -> Action<'_>
    ensures table { deed_of result ≡ deed_in state.now }
    ensures lawful { (job : Job) → Follows job state.now → IsLawfulDeed job (deed_of result) }
    ensures asked { (job : Job) → Follows job state.now → IsAskedFor state.now job (deed_of result) }
{
    tabled(state)
}

// What a job does next, by the table of its phases.
fn tabled(state: &JobState) -> Action<'_>
    ensures { deed_of result ≡ deed_in state.now }
{
    match state {
        JobState::Init(job) => job.decide(),
        JobState::Sync(job) => job.decide(),
        JobState::Copy(job) => job.decide(),
    }
}

/// A job after the answer to what it did, by the table of its phases.
///
/// Whatever a job had heard that led to the state, what it has heard with the answer leads to the result. Unless the
/// job had nothing more to do, the result is nearer to its end by a number, so that a loop needs no bound of its own.
#[tactic(auto, using(crate::proofs::StateLemmas::follows_by))]
pub fn absorb(state: JobState, answer: Answer) -> JobState
    ensures table { result ≡ after state answer }
    ensures follows { (job : Job) (moment : ℕ) → Follows job state
        → Follows (heard job moment (deed_in state) answer) result }
    ensures nearer { deed_in state ≢ Ends → left result < left state }
{
    can_be(&answer);
    moved(state, answer)
}

// A newest revision that is told is one that can be.
fn can_be(answer: &Answer)
    ensures { CanBe answer.now }
{
    match answer {
        Answer::Latest(number) => {
            let _ = number.get();
        }
        Answer::Done => {}
        Answer::Seen(_) => {}
        Answer::Identity(_) => {}
        Answer::Revision(_, _) => {}
        Answer::Map(_) => {}
        Answer::Refused(_) => {}
        Answer::Failed(_) => {}
    }
}

// A job after the answer to what it did, by the table of its phases.
fn moved(state: JobState, answer: Answer) -> JobState
    ensures { result ≡ after state answer }
{
    match state {
        JobState::Init(job) => JobState::Init(job.absorb(answer)),
        JobState::Sync(job) => JobState::Sync(job.absorb(answer)),
        JobState::Copy(job) => JobState::Copy(job.absorb(answer)),
    }
}

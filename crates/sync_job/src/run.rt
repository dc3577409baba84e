//! Runs of jobs.
ghost use Rattle.std.specs.Prelude.{◌≡◌, ◌≢◌, ◌<◌, Some, IfNone, IfSome};
ghost use Rattle.sync_core.specs.Deeds.{Ends};
ghost use Rattle.sync_core.specs.Measures.{left};
ghost use Rattle.sync_core.specs.States.{deed_in, ending_of};
ghost use Rattle.sync_job.specs.Left.{LeavesPorts};
ghost use Rattle.sync_job.specs.Ports.{Acts, HasTreeFor, MovesAsSaid, Rests, RunsCopy, RunsInit, RunsInWorld, RunsJob};
ghost use Rattle.sync_job.specs.Ports.{RunsSync, SaysCalls, SaysQuestions, StopsInWorld};
ghost use Rattle.sync_job.specs.Rooms.{IsReady, IsUnlocked};
ghost use Rattle.sync_job.specs.Runs.{answer_to};

use crate::master::MasterPort;
use crate::mirror::MirrorPort;
use crate::ports::JobPorts;
use crate::report::Report;
use node_base::{PropValue, RevNo};
use path_tree::Tree;
use std::alloc::Global;
use sync_core::law::{answers_are_heard, every_run, jobs_end, jobs_follow};
use sync_core::{Action, Answer, Ending, JobState, SyncFault, Token, absorb, decide};

/// Brings the mirror up to its master.
pub fn run_sync<M: MasterPort + Drop, N: MirrorPort + Drop, R: Report + Drop>(
    alloc: Global,
    ports: &mut JobPorts<M, N, R>,
    token: Token,
    steal: bool,
) -> Result<(), SyncFault>
    ensures run { RunsSync R.Report ports.old ports.new token steal result }
    ensures left { LeavesPorts M.MasterPort N.MirrorPort ports.old ports.new }
{
    jobs_follow();
    jobs_end();
    result_of(run_job(alloc, ports, JobState::sync(token, steal)))
}

/// Makes the mirror one of the master, which is reached by that URL.
pub fn run_init<M: MasterPort + Drop, N: MirrorPort + Drop, R: Report + Drop>(
    alloc: Global,
    ports: &mut JobPorts<M, N, R>,
    url: PropValue,
) -> Result<(), SyncFault>
    ensures run { RunsInit R.Report ports.old ports.new url result }
    ensures left { LeavesPorts M.MasterPort N.MirrorPort ports.old ports.new }
{
    jobs_follow();
    jobs_end();
    result_of(run_job(alloc, ports, JobState::init(url)))
}

/// Copies the properties of the revisions from `low` to `high` again.
pub fn run_copy_revprops<M: MasterPort + Drop, N: MirrorPort + Drop, R: Report + Drop>(
    alloc: Global,
    ports: &mut JobPorts<M, N, R>,
    token: Token,
    low: RevNo,
    high: RevNo,
) -> Result<(), SyncFault>
    ensures run { RunsCopy R.Report ports.old ports.new token low high result }
    ensures left { LeavesPorts M.MasterPort N.MirrorPort ports.old ports.new }
{
    jobs_follow();
    jobs_end();
    result_of(run_job(alloc, ports, JobState::copy_props(token, low, high)))
}

// How a run ended, as an answer.
fn result_of(ending: Ending) -> Result<(), SyncFault>
    ensures { result ≡ answer_to ending }
{
    match ending {
        Ending::Fine => Ok(()),
        Ending::Refused(fault) => Err(fault),
    }
}

// Runs a job to its end, which each answer brings nearer.
fn run_job<M: MasterPort + Drop, N: MirrorPort + Drop, R: Report + Drop>(
    alloc: Global,
    ports: &mut JobPorts<M, N, R>,
    state: JobState,
) -> Ending
    requires near { left state < 18446744073709551615 }
    requires first { IsUnlocked state }
    ensures ran { RunsJob R.Report ports.old ports.new state result }
    ensures mirror { MovesAsSaid N.MirrorPort ports.old ports.new }
    ensures asked { SaysCalls N.MirrorPort ports.old ports.new }
    ensures answered { SaysQuestions M.MasterPort ports.old ports.new }
    ensures world { RunsInWorld M.MasterPort N.MirrorPort ports.old ports.new state }
    ensures stops { StopsInWorld M.MasterPort N.MirrorPort ports.old ports.new state }
{
    every_run();
    answers_are_heard();
    jobs_follow();
    jobs_end();
    let mut state = state;
    let mut trees = Vec::new(alloc);
    for _i in 0..u64::MAX {
        match next(alloc, ports, &mut trees, &state) {
            Some(answer) => state = absorb(state, answer),
            None => return ended(state),
        }
    }
    unreachable!()
}

// What the job does next is done, and answered; None where it has ended.
fn next<M: MasterPort + Drop, N: MirrorPort + Drop, R: Report + Drop>(
    alloc: Global,
    ports: &mut JobPorts<M, N, R>,
    trees: &mut Vec<Tree>,
    state: &JobState,
) -> Option<Answer>
    requires ready { IsReady (deed_in state.now) ports.old }
    requires made { HasTreeFor N.MirrorPort ports.old (deed_in state.now) }
    ensures goes { IfSome result (λ _. deed_in state.now ≢ Ends) }
    ensures acts { IfSome result (Acts M.MasterPort N.MirrorPort R.Report ports.old ports.new trees.old.items
        trees.new.items (deed_in state.now)) }
    ensures ends { IfNone result (deed_in state.now ≡ Ends) }
    ensures rests { IfNone result (Rests ports.old ports.new trees.old.items trees.new.items) }
{
    match decide(state) {
        Action::End => None,
        action => Some(ports.act(alloc, trees, &action)),
    }
}

// How a job has ended.
fn ended(state: JobState) -> Ending
    requires { deed_in state ≡ Ends }
    ensures { ending_of state ≡ Some result }
{
    jobs_end();
    match state.ending() {
        Some(ending) => ending,
        None => unreachable!(),
    }
}

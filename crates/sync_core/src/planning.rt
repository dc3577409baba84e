//! The judged half of a step.
ghost use Rattle.std.specs.Prelude.{◌≡◌, IfOk, IfErr};
ghost use Rattle.sync_core.specs.Calls.{call_of};
ghost use Rattle.sync_core.specs.Mirror.{mirror_with};
ghost use Rattle.sync_core.specs.Plain.{AnswersErr};
ghost use Rattle.sync_core.specs.Plans.{IsPlanned};

use crate::call::MirrorCall;
use crate::entry::{entry_of, own_of};
use crate::fault::SyncFault;
use crate::looking::look;
use crate::needs::unmet_need;
use crate::seat::Seat;
use crate::standing::Standing;
use crate::told_need::need_fault;
use repo_core::{Entry, Repo};
use std::alloc::Global;

/// What a call comes to that misses no need.
#[derive(Drop)]
pub enum Planned {
    /// A look's answer.
    Tell(Standing),
    /// The entry that is to be written. The repository may refuse it yet.
    Write(Entry),
}

/// What a seat's call of a mirror comes to, over the mirror's repository and the running seat whose call took its lock.
/// A mirror in memory goes on by installing the entry, one on a disk by writing it, and both then take
/// [`crate::holder_after`].
///
/// A call is refused for a need that isn't met, or else as the repository would refuse its entry (8, 21); what else the
/// repository refuses of the entry refuses the call. Nothing changes here. Want of memory is the answer to a need that
/// isn't met only where the lock's text is told.
pub fn plan(
    alloc: Global,
    repo: &Repo,
    holder: Option<Seat>,
    seat: Seat,
    call: &MirrorCall<'_>,
) -> Result<Planned, SyncFault>
    ensures planned { IfOk result (IsPlanned (mirror_with repo.now.revisions holder) seat (call_of call.now)) }
    ensures refused { IfErr result (λ f. AnswersErr (mirror_with repo.now.revisions holder) seat (call_of call.now) f
        (mirror_with repo.now.revisions holder)) }
{
    let own = own_of(repo);
    match unmet_need(own, repo.head(), holder, seat, call) {
        Some(need) => return Err(need_fault(alloc, need, own)),
        None => {}
    }
    let Some(entry) = entry_of(alloc, repo, call)? else {
        return Ok(Planned::Tell(look(alloc, own, repo.head())?));
    };
    Ok(Planned::Write(entry))
}

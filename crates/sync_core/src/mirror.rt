//! A mirror in memory.
ghost use Rattle.std.specs.Prelude.{◌≡◌, None, IfOk, OnOk, IfErr};
ghost use Rattle.repo_core.specs.Staging.{IsReady};
ghost use Rattle.repo_core.specs.Refusals.{by_repository};
ghost use Rattle.repo_core.specs.Refusals.{IsDue as IsDueRepo};
ghost use Rattle.sync_core.specs.World.{holder_left};
ghost use Rattle.sync_core.specs.Calls.{call_of};
ghost use Rattle.sync_core.specs.Plain.{mirror_of, Answers, IsNumbered};

use crate::call::MirrorCall;
use crate::fault::SyncFault;
use crate::holders::{holder_after, holder_left};
use crate::planning::{Planned, plan};
use crate::reply::Reply;
use crate::seat::Seat;
use repo_core::{Entry, Repo, RepoFault, Staged};
use std::alloc::Global;

/// A mirror in memory: its repository, and the running seat whose call took its lock.
#[derive(Drop)]
pub struct PlainMirror {
    pub repo: Repo,
    pub holder: Option<Seat>,
}

impl PlainMirror {
    /// A mirror that is not initialized yet, over a repository, with nobody at it.
    pub fn new(repo: Repo) -> PlainMirror
        ensures { (result.repo ≡ repo) × (result.holder ≡ None) }
    {
        PlainMirror { repo, holder: None }
    }

    /// One call of a seat. A need that isn't met refuses it, or else what the repository refuses of the call's entry; a
    /// refused call changes nothing.
    ///
    /// Want of memory changes nothing either. Of a need that isn't met it is the answer only where the lock's text is
    /// told.
    pub fn step(
        &mut self,
        alloc: Global,
        seat: Seat,
        call: &MirrorCall<'_>,
    ) -> Result<Reply, SyncFault>
        ensures { Answers (mirror_of self.old) seat (call_of call.now) result (mirror_of self.new) }
    {
        match plan(alloc, &self.repo, self.holder, seat, call)? {
            Planned::Tell(standing) => Ok(Reply::Seen(standing)),
            Planned::Write(entry) => {
                let staged = stage(alloc, &self.repo, entry)?;
                self.repo.install(staged);
                self.holder = holder_after(self.holder, seat, call);
                Ok(Reply::Done)
            }
        }
    }

    /// The seat leaves: if it is the holder there is none from then on, and the lock stays.
    pub fn leave(&mut self, seat: Seat)
        ensures repo { self.new.repo ≡ self.old.repo }
        ensures holder { self.new.holder ≡ holder_left self.old.holder seat }
    {
        self.holder = holder_left(self.holder, seat);
    }
}

// The entry, ready to be taken in.
fn stage(alloc: Global, repo: &Repo, entry: Entry) -> Result<Staged, RepoFault>
    requires { IsNumbered repo.now.revisions entry }
    ensures entry { IfOk result (λ s. s.entry ≡ entry) }
    ensures ready { IfOk result (IsReady repo.now.revisions) }
    ensures taken { OnOk result (by_repository repo.now.revisions entry ≡ None) }
    ensures refused { IfErr result (λ e. IsDueRepo e (by_repository repo.now.revisions entry)) }
{
    match entry {
        Entry::Revised {
            number: _,
            set,
            props,
        } => repo.stage_commit(alloc, repo.head(), set, props, None),
        Entry::Mapped { number, props } => repo.stage_put_props(number, props),
    }
}

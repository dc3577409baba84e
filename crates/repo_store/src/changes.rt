//! The changes of a store: an entry is made ready, and then installed.
ghost use Rattle.std.specs.Prelude.{◌≡◌, length, Option, None, IfOk, IfErr};
ghost use Rattle.std.specs.Option.{option_copied};
ghost use Rattle.repo_core.specs.Repository.{Revision};
ghost use Rattle.repo_core.specs.Dates.{dated};
ghost use Rattle.repo_core.specs.Staging.{IsReady};
ghost use Rattle.repo_core.specs.declared.entry.Entry.TheVariants.{Mapped};
ghost use Rattle.repo_store.specs.Changes.{next_entry, Installs, IsJudgedOver, IsJudgment, IsNumbered, KeepsVersion};
ghost use Rattle.repo_store.specs.Changes.{Stages, StagesCommit, StagesEntry, StagesJudged, StagesProp, TakesCommit};
ghost use Rattle.repo_store.specs.Changes.{TakesEntry, TakesProp};
ghost use Rattle.repo_store.specs.Words.{entry_in, revisions_of, HasFailed, IsNextReceipt, IsReadyFor};

use crate::spell::entry_bytes;
use crate::{Committed, RepoStore, Staged, StoreFault};
use dump_load::{Applied, ChangeSet};
use fleet_disk::Disk;
use gate_log::{LogFault, Receipt};
use node_base::{PropName, Props, RevNo};
use repo_core::{Entry, Expected, Moment, Repo, RepoFault};
use std::alloc::Global;

impl<D: Disk> RepoStore<D> {
    /// Makes an entry ready, with its bytes and the journal's room for them. Nothing changes. A revision's entry has
    /// the number after the head's.
    ///
    /// Refused is any entry after a failure of the device (32); then what the repository refuses of it (21, 23, its
    /// set's first fault, 8); then an entry past the journal's limit (36); and want of memory (70).
    pub fn stage(&mut self, alloc: Global, entry: Entry) -> Result<Staged, StoreFault>
        requires numbered { IsNumbered (revisions_of self.old) entry }
        ensures stages { StagesEntry entry self.old self.new result }
        ensures version { KeepsVersion self.old self.new }
    {
        let judged = judge(alloc, &self.repo, entry);
        self.ready(alloc, judged)
    }

    /// Makes a commit ready, as `Repo::stage_commit` does. Refused are a base above the head (21) or below it (25), and
    /// what `stage` refuses.
    pub fn stage_commit(
        &mut self,
        alloc: Global,
        base: RevNo,
        set: ChangeSet,
        props: Props,
        moment: Option<Moment>,
    ) -> Result<Staged, StoreFault>
        ensures stages { StagesCommit base set (dated props moment) self.old self.new result }
        ensures version { KeepsVersion self.old self.new }
    {
        let judged = self.repo.stage_commit(alloc, base, set, props, moment);
        self.ready(alloc, judged)
    }

    /// Makes the revision after the head ready, of a set that was judged over this store's revisions: it isn't applied
    /// again. Refused is what `stage` refuses but for the set's fault.
    pub fn stage_applied(
        &mut self,
        alloc: Global,
        applied: Applied,
        props: Props,
    ) -> Result<Staged, StoreFault>
        requires { IsJudgedOver (revisions_of self.old) applied }
        ensures stages { StagesEntry (next_entry (revisions_of self.old) applied.set props) self.old self.new result }
        ensures version { KeepsVersion self.old self.new }
    {
        let judged = judge_applied(&self.repo, applied, props);
        self.ready(alloc, judged)
    }

    /// Makes a conditional change of one property ready, as `Repo::stage_change_prop` does. Refused are another value
    /// than the expected one (22), and what `stage` refuses.
    pub fn stage_change_prop(
        &mut self,
        alloc: Global,
        number: RevNo,
        name: &PropName,
        value: Option<&[u8]>,
        expected: &Expected,
    ) -> Result<Staged, StoreFault>
        ensures stages { StagesProp number name.now (option_copied value.entry) expected.now self.old self.new
            result }
        ensures version { KeepsVersion self.old self.new }
    {
        let judged = self
            .repo
            .stage_change_prop(alloc, number, name, value, expected);
        self.ready(alloc, judged)
    }

    /// Writes what was staged to the disk, and takes it in; no other call of this store comes between. It needs no
    /// memory. DeviceFailed (31) alone is answered, after which the repository in memory is as before, and on the disk
    /// it is that or the one after the entry.
    pub fn install(&mut self, staged: Staged) -> Result<Receipt, StoreFault>
        requires { IsReadyFor self.old staged }
        ensures installed { Installs (entry_in staged) self.old self.new result }
        ensures receipt { IfOk result (IsNextReceipt self.old) }
        ensures version { KeepsVersion self.old self.new }
    {
        let Staged { change, bytes } = staged;
        match self.log.append(&bytes) {
            Ok(receipt) => {
                self.repo.install(change);
                Ok(receipt)
            }
            Err(fault) => {
                self.doubt = Some(change);
                Err(StoreFault::Log(fault))
            }
        }
    }

    /// Commits a set of changes against the head: `stage_commit`, then `install`.
    pub fn commit(
        &mut self,
        alloc: Global,
        base: RevNo,
        set: ChangeSet,
        props: Props,
        moment: Option<Moment>,
    ) -> Result<Committed, StoreFault>
        ensures change { TakesCommit base set (dated props moment) self.old self.new result }
        ensures number { IfOk result (λ c. c.number ≡ length (revisions_of self.old)) }
        ensures receipt { IfOk result (λ c. IsNextReceipt self.old c.receipt) }
        ensures version { KeepsVersion self.old self.new }
    {
        let staged = self.stage_commit(alloc, base, set, props, moment)?;
        let receipt = self.install(staged)?;
        let number = self.repo.head();
        Ok(Committed { receipt, number })
    }

    /// Commits a set that was judged over this store's revisions: `stage_applied`, then `install`.
    pub fn commit_applied(
        &mut self,
        alloc: Global,
        applied: Applied,
        props: Props,
    ) -> Result<Committed, StoreFault>
        requires { IsJudgedOver (revisions_of self.old) applied }
        ensures change { TakesEntry (next_entry (revisions_of self.old) applied.set props) self.old self.new result }
        ensures number { IfOk result (λ c. c.number ≡ length (revisions_of self.old)) }
        ensures receipt { IfOk result (λ c. IsNextReceipt self.old c.receipt) }
        ensures version { KeepsVersion self.old self.new }
    {
        let staged = self.stage_applied(alloc, applied, props)?;
        let receipt = self.install(staged)?;
        Ok(Committed {
            receipt,
            number: self.repo.head(),
        })
    }

    /// Puts a value at the name of a property of a revision, or takes it away, where the present value is as expected:
    /// `stage_change_prop`, then `install`.
    pub fn change_prop(
        &mut self,
        alloc: Global,
        number: RevNo,
        name: &PropName,
        value: Option<&[u8]>,
        expected: &Expected,
    ) -> Result<Receipt, StoreFault>
        ensures change { TakesProp number name.now (option_copied value.entry) expected.now self.old self.new result }
        ensures receipt { IfOk result (IsNextReceipt self.old) }
        ensures version { KeepsVersion self.old self.new }
    {
        let staged = self.stage_change_prop(alloc, number, name, value, expected)?;
        self.install(staged)
    }

    /// Puts all properties of a revision: `stage` of that entry, then `install`.
    pub fn put_props(
        &mut self,
        alloc: Global,
        number: RevNo,
        props: Props,
    ) -> Result<Receipt, StoreFault>
        ensures change { TakesEntry (Mapped number props) self.old self.new result }
        ensures receipt { IfOk result (IsNextReceipt self.old) }
        ensures version { KeepsVersion self.old self.new }
    {
        let staged = self.stage(alloc, Entry::Mapped { number, props })?;
        self.install(staged)
    }

    // What the repository judged is made ready.
    fn ready(
        &mut self,
        alloc: Global,
        judged: Result<repo_core::Staged, RepoFault>,
    ) -> Result<Staged, StoreFault>
        requires ready { IfOk judged (IsReady (revisions_of self.old)) }
        ensures stages { StagesJudged judged self.old self.new result }
        ensures version { KeepsVersion self.old self.new }
    {
        if self.log.has_failed() {
            return Err(StoreFault::Log(LogFault::Failed));
        }
        match judged {
            Ok(change) => self.reserve(alloc, change),
            Err(fault) => Err(StoreFault::Repo(fault)),
        }
    }

    // The bytes of a change's entry, and the journal's room for them.
    #[tactic(auto, using(crate::proofs::Spelling::spelled_some))]
    fn reserve(&mut self, alloc: Global, change: repo_core::Staged) -> Result<Staged, StoreFault>
        requires working { ¬ HasFailed self.old }
        requires ready { IsReady (revisions_of self.old) change }
        ensures stages { Stages change.entry None self.old self.new result }
        ensures version { KeepsVersion self.old self.new }
    {
        let Ok(bytes) = entry_bytes(alloc, change.entry()) else {
            return Err(StoreFault::Log(LogFault::OutOfMemory));
        };
        match self.log.reserve(bytes.len()) {
            Ok(()) => Ok(Staged { change, bytes }),
            Err(fault) => Err(StoreFault::Log(fault)),
        }
    }
}

// What a repository makes of a set that was judged over its revisions.
fn judge_applied(
    repo: &Repo,
    applied: Applied,
    props: Props,
) -> Result<repo_core::Staged, RepoFault>
    requires { IsJudgedOver repo.now.revisions applied }
    ensures judged { IsJudgment repo.now.revisions (next_entry repo.now.revisions applied.set props) result }
    ensures ready { IfOk result (IsReady repo.now.revisions) }
{
    repo.stage_applied(applied, props)
}

// What a repository makes of an entry.
fn judge(alloc: Global, repo: &Repo, entry: Entry) -> Result<repo_core::Staged, RepoFault>
    requires numbered { IsNumbered repo.now.revisions entry }
    ensures judged { IsJudgment repo.now.revisions entry result }
    ensures ready { IfOk result (IsReady repo.now.revisions) }
{
    match entry {
        Entry::Revised {
            number: _,
            set,
            props,
        } => repo.stage_commit(alloc, repo.head(), set, props, None),
        Entry::Mapped { number, props } => repo.stage_put_props(number, props),
    }
}

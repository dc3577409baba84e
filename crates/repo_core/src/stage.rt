//! Changes judged and made ready: every refusal, and all memory that a change takes.
ghost use Rattle.std.specs.Prelude.{◌≡◌, ◌≢◌, ◌<◌, ◌≤◌, length, None, Some, IfOk, OnOk, IfErr};
ghost use Rattle.std.specs.Prelude.{OnErr, IsOk};
ghost use Rattle.std.specs.Option.{option_copied};
ghost use Rattle.dump_load.specs.Trees.{Makes};
ghost use Rattle.repo_core.specs.Repository.{props_at, trees_of};
ghost use Rattle.repo_core.specs.Dates.{dated};
ghost use Rattle.repo_core.specs.Entries.{Revised, Mapped};
ghost use Rattle.repo_core.specs.Staging.{IsReady};
ghost use Rattle.repo_core.specs.Refusals.{base_fault, commit_fault, change_fault, by_repository, with_value, IsDue};
ghost use Rattle.repo_core.specs.declared.fault.RepoFault.TheVariants.{Full, NoSuchRevision, Behind};

use crate::maps::{dated, value_at, with_value};
use crate::{Expected, Moment, Repo, RepoFault, Staged};
use dump_load::{Applied, ChangeSet, apply};
use node_base::limits::REVISION;
use node_base::{PropName, Props, RevNo};
use std::alloc::Global;

impl Repo {
    /// Makes a commit ready: the revision after the head with the tree that the set makes, and the properties, in
    /// which the moment, where one is given, is the `svn:date`.
    ///
    /// Refused are a base above the head (21) or below it (25, with the head), the revision after 65,535 (23), the
    /// set's first fault, and properties past the limits (8).
    pub fn stage_commit(
        &self,
        alloc: Global,
        base: RevNo,
        set: ChangeSet,
        props: Props,
        moment: Option<Moment>,
    ) -> Result<Staged, RepoFault>
        ensures entry { IfOk result (λ s. s.entry ≡ Revised (length self.now.revisions) set (dated props moment)) }
        ensures ready { IfOk result (IsReady self.now.revisions) }
        ensures taken { OnOk result
            (commit_fault self.now.revisions base (Revised (length self.now.revisions) set (dated props moment))
            ≡ None) }
        ensures refused { IfErr result
            (λ e. IsDue e (commit_fault self.now.revisions base
            (Revised (length self.now.revisions) set (dated props moment)))) }
    {
        judge_base(self.head(), base)?;
        let number = self.next_number()?;
        let tree = apply(alloc, self.trees(), &set)?;
        let props = dated(alloc, props, moment)?;
        Ok(Staged::revision(number, Applied { set, tree }, props))
    }

    /// Makes the revision after the head ready, of a set that was judged over the revisions that are there: it isn't
    /// applied again, and takes no memory. Refused is the revision after 65,535 (23).
    pub fn stage_applied(&self, applied: Applied, props: Props) -> Result<Staged, RepoFault>
        requires { Makes (trees_of self.now.revisions) applied.set applied.tree }
        ensures entry { IfOk result (λ s. s.entry ≡ Revised (length self.now.revisions) applied.set props) }
        ensures ready { IfOk result (IsReady self.now.revisions) }
        ensures refused { IfErr result (λ e. by_repository self.now.revisions
            (Revised (length self.now.revisions) applied.set props) ≡ Some e) }
        ensures room { length self.now.revisions ≤ REVISION → IsOk result }
    {
        let _ = props.entries();
        match self.next_number() {
            Ok(number) => Ok(Staged::revision(number, applied, props)),
            Err(fault) => Err(fault),
        }
    }

    /// Makes a conditional change of one property of a revision ready: the value stands at the name, or none does.
    ///
    /// Refused are a revision above the head (21), another value than the expected one (22, with the value that is
    /// there), and properties past the limits (8).
    pub fn stage_change_prop(
        &self,
        alloc: Global,
        number: RevNo,
        name: &PropName,
        value: Option<&[u8]>,
        expected: &Expected,
    ) -> Result<Staged, RepoFault>
        ensures entry { IfOk result (λ s. s.entry
            ≡ Mapped number (with_value (props_at self.now.revisions number) name.now (option_copied value.entry))) }
        ensures ready { IfOk result (IsReady self.now.revisions) }
        ensures taken { OnOk result
            (change_fault self.now.revisions number name.now (option_copied value.entry) expected.now ≡ None) }
        ensures refused { IfErr result
            (λ e. IsDue e (change_fault self.now.revisions number name.now (option_copied value.entry) expected.now)) }
    {
        let Some(props) = self.props(number) else {
            return Err(RepoFault::NoSuchRevision);
        };
        if !expected.admits(props.get(name.as_bytes())) {
            return Err(RepoFault::BaseMismatch(value_at(alloc, props, name.as_bytes())?));
        }
        let props = with_value(alloc, props.share()?, name, value)?;
        Ok(Staged::map(number, props))
    }

    /// Makes a change of all properties of a revision ready, which takes no memory. Refused is a revision above the
    /// head (21).
    pub fn stage_put_props(&self, number: RevNo, props: Props) -> Result<Staged, RepoFault>
        ensures entry { IfOk result (λ s. s.entry ≡ Mapped number props) }
        ensures ready { IfOk result (IsReady self.now.revisions) }
        ensures refused { IfErr result (λ e. by_repository self.now.revisions (Mapped number props) ≡ Some e) }
        ensures there { number < length self.now.revisions → IsOk result }
    {
        let _ = props.entries();
        match self.props(number) {
            Some(_) => Ok(Staged::map(number, props)),
            None => Err(RepoFault::NoSuchRevision),
        }
    }

    // The number after the head's.
    fn next_number(&self) -> Result<RevNo, RepoFault>
        ensures number { IfOk result (λ n. n ≡ length self.now.revisions) }
        ensures room { OnOk result (length self.now.revisions ≤ REVISION) }
        ensures full { IfErr result (λ e. (e ≡ Full) × (REVISION < length self.now.revisions)) }
    {
        let number = self.trees().len();
        if number > REVISION as usize {
            return Err(RepoFault::Full);
        }
        Ok(RevNo::new(number as u16))
    }
}

// A commit is made against the head.
fn judge_base(head: RevNo, base: RevNo) -> Result<(), RepoFault>
    ensures ok { OnOk result (base ≡ head) }
    ensures above { IfErr result (λ e. head < base → e ≡ NoSuchRevision) }
    ensures below { IfErr result (λ e. base < head → e ≡ Behind head) }
    ensures differs { OnErr result (base ≢ head) }
{
    if base > head {
        return Err(RepoFault::NoSuchRevision);
    }
    if base < head {
        return Err(RepoFault::Behind(head));
    }
    Ok(())
}

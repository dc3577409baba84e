//! Changes of a repository, each staged and then installed.
ghost use Rattle.std.specs.Prelude.{◌≡◌, ◌<◌, length, None, Some, IfOk, OnOk, IfErr, OnErr, IsOk};
ghost use Rattle.std.specs.Option.{option_copied};
ghost use Rattle.repo_core.specs.Repository.{props_at};
ghost use Rattle.repo_core.specs.Dates.{dated};
ghost use Rattle.repo_core.specs.Entries.{Revised, Mapped, with_entry_in};
ghost use Rattle.repo_core.specs.Refusals.{commit_fault, change_fault, by_repository, with_value, IsDue};

use crate::{Expected, Moment, Repo, RepoFault};
use dump_load::ChangeSet;
use node_base::{PropName, Props, RevNo};
use std::alloc::Global;

impl Repo {
    /// Commits a set of changes against the head, and answers the new revision's number. `stage_commit` has the
    /// refusals; a refused commit changes nothing.
    pub fn commit(
        &mut self,
        alloc: Global,
        base: RevNo,
        set: ChangeSet,
        props: Props,
        moment: Option<Moment>,
    ) -> Result<RevNo, RepoFault>
        ensures number { IfOk result (λ n. n ≡ length self.old.revisions) }
        ensures made { OnOk result (self.new
            ≡ with_entry_in self.old (Revised (length self.old.revisions) set (dated props moment))) }
        ensures taken { OnOk result
            (commit_fault self.old.revisions base (Revised (length self.old.revisions) set (dated props moment))
            ≡ None) }
        ensures refused { IfErr result
            (λ e. IsDue e (commit_fault self.old.revisions base
            (Revised (length self.old.revisions) set (dated props moment)))) }
        ensures same { OnErr result (self.new ≡ self.old) }
    {
        let staged = self.stage_commit(alloc, base, set, props, moment)?;
        self.install(staged);
        Ok(self.head())
    }

    /// Puts a value at the name of a property of a revision, or takes it away, where the present value is as expected.
    /// `stage_change_prop` has the refusals; a refused change changes nothing.
    pub fn change_prop(
        &mut self,
        alloc: Global,
        number: RevNo,
        name: &PropName,
        value: Option<&[u8]>,
        expected: &Expected,
    ) -> Result<(), RepoFault>
        ensures made { OnOk result (self.new
            ≡ with_entry_in self.old
            (Mapped number (with_value (props_at self.old.revisions number) name.now (option_copied value.entry)))) }
        ensures taken { OnOk result
            (change_fault self.old.revisions number name.now (option_copied value.entry) expected.now ≡ None) }
        ensures refused { IfErr result
            (λ e. IsDue e (change_fault self.old.revisions number name.now (option_copied value.entry) expected.now)) }
        ensures same { OnErr result (self.new ≡ self.old) }
    {
        let staged = self.stage_change_prop(alloc, number, name, value, expected)?;
        self.install(staged);
        Ok(())
    }

    /// Puts all properties of a revision, without memory. Refused is a revision above the head (21), and then
    /// nothing changes.
    pub fn put_props(&mut self, number: RevNo, props: Props) -> Result<(), RepoFault>
        ensures made { OnOk result (self.new ≡ with_entry_in self.old (Mapped number props)) }
        ensures taken { OnOk result (by_repository self.old.revisions (Mapped number props) ≡ None) }
        ensures refused { IfErr result (λ e. by_repository self.old.revisions (Mapped number props) ≡ Some e) }
        ensures there { number < length self.old.revisions → IsOk result }
        ensures same { OnErr result (self.new ≡ self.old) }
    {
        let staged = self.stage_put_props(number, props)?;
        self.install(staged);
        Ok(())
    }
}

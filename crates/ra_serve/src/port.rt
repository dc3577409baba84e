//! What is served.

ghost use Rattle.std.specs.Prelude.{◌≡◌, ◌≤◌, ℕ, Bool, List, Option, Some, None, take, length, IfOk, IfErr, OnOk, OnErr};
ghost use Rattle.std.specs.Option.{option_copied};
ghost use Rattle.node_base.specs.Tree.{PathMap};
ghost use Rattle.repo_core.specs.Repository.{Repository, IsRepository, head_of, props_at};
ghost use Rattle.repo_core.specs.Refusals.{with_value, wanted};
ghost use Rattle.repo_core.specs.Entries.{with_entry_in};
ghost use Rattle.repo_core.specs.declared.entry.Entry.TheVariants.{Mapped};
ghost use Rattle.ra_serve.specs.Ports.{Goes, StaysBy, MayRefuse, no_revision, change_due, tree_of, IsReplay};

use crate::fault::PortFault;
use dump_load::ChangeSet;
use node_base::{PropName, Props, RevNo};
use path_tree::Tree;
use repo_core::Expected;
use uuid::Uuid;

/// What a replay of a revision takes beside the trees of the revisions before it: its changes and its properties. Both
/// are shares: nothing is copied.
#[derive(Drop)]
pub struct Replay {
    pub set: ChangeSet,
    pub props: Props,
}

/// A repository that can be served. Where it is nobody else's, its calls answer what it is; where others change it
/// between calls it isn't known, and nothing is said of the answers. A refusal of the port's own (31, 32, 36, 70) is
/// counted, as a disk counts its failures.
pub trait RepoPort {
    /// The repository, where it is known.
    ghost repository: { Self → Option Repository };

    /// How often the port refused a call by itself.
    ghost refusals: { Self → ℕ };

    /// Whether it takes no changes.
    ghost is_mirror: { Self → Bool };

    /// The trees that it lends, of the revisions from 0 up.
    ghost lent: { Self → List PathMap };

    /// Does nothing: its contract says what is served.
    fn is_repository(&self)
        ensures { (x : Repository) → repository self.now ≡ Some x → IsRepository x };

    /// Its identity.
    fn identity(&self) -> Uuid
        ensures { (x : Repository) → repository self.now ≡ Some x → result ≡ x.identity };

    /// Whether it takes no changes.
    fn read_only(&self) -> bool
        ensures { result ≡ is_mirror self.now };

    /// The newest revision.
    fn latest(&mut self) -> Result<RevNo, PortFault>
        ensures head { (x : Repository) → repository self.old ≡ Some x → IfOk result (λ n. n ≡ head_of x.revisions) }
        ensures refused { (x : Repository) → repository self.old ≡ Some x
            → IfErr result (λ f. MayRefuse (refusals self.old) (refusals self.new) f None) }
        ensures stays { StaysBy repository refusals is_mirror self.old self.new };

    /// The tree of a revision. NoSuchRevision (21) above the head.
    fn tree(&mut self, number: RevNo) -> Result<Tree, PortFault>
        ensures tree { (x : Repository) → repository self.old ≡ Some x
            → IfOk result (λ t. (no_revision x number ≡ None) × (t ≡ tree_of x number)) }
        ensures refused { (x : Repository) → repository self.old ≡ Some x
            → IfErr result (λ f. MayRefuse (refusals self.old) (refusals self.new) f (no_revision x number)) }
        ensures stays { StaysBy repository refusals is_mirror self.old self.new };

    /// The properties of a revision. NoSuchRevision (21) above the head.
    fn props(&mut self, number: RevNo) -> Result<Props, PortFault>
        ensures props { (x : Repository) → repository self.old ≡ Some x
            → IfOk result (λ p. (no_revision x number ≡ None) × (p ≡ props_at x.revisions number)) }
        ensures refused { (x : Repository) → repository self.old ≡ Some x
            → IfErr result (λ f. MayRefuse (refusals self.old) (refusals self.new) f (no_revision x number)) }
        ensures stays { StaysBy repository refusals is_mirror self.old self.new };

    /// Puts a value at the name of a property of a revision, or takes it away, where the present value is as expected.
    /// NoSuchRevision (21), BaseMismatch (22), TooLong (8), in this order. A refused change changes nothing.
    fn change_prop(
        &mut self,
        number: RevNo,
        name: &PropName,
        value: Option<&[u8]>,
        expected: &Expected,
    ) -> Result<(), PortFault>
        ensures made { (x : Repository) → repository self.old ≡ Some x → OnOk result (repository self.new
            ≡ Some (with_entry_in x
            (Mapped number (with_value (props_at x.revisions number) name.now (option_copied value.entry))))) }
        ensures taken { (x : Repository) → repository self.old ≡ Some x → OnOk result
            (change_due x number name.now (option_copied value.entry) (wanted expected.now) ≡ None) }
        ensures refused { (x : Repository) → repository self.old ≡ Some x
            → IfErr result (λ f. MayRefuse (refusals self.old) (refusals self.new) f
            (change_due x number name.now (option_copied value.entry) (wanted expected.now))) }
        ensures same { OnErr result (repository self.new ≡ repository self.old) }
        ensures goes { Goes (is_mirror self.old) (is_mirror self.new) (refusals self.old) (refusals self.new) };

    /// What a replay of a revision takes. The trees of the revisions before it are lent from then on, until another
    /// call. NoSuchRevision (21) above the head.
    fn replay_of(&mut self, number: RevNo) -> Result<Replay, PortFault>
        ensures there { (x : Repository) → repository self.old ≡ Some x
            → OnOk result (no_revision x number ≡ None) }
        ensures replay { (x : Repository) → repository self.old ≡ Some x
            → IfOk result (λ p. IsReplay x number p.set (take number (lent self.new)) p.props) }
        ensures enough { OnOk result (number ≤ length (lent self.new)) }
        ensures refused { (x : Repository) → repository self.old ≡ Some x
            → IfErr result (λ f. MayRefuse (refusals self.old) (refusals self.new) f (no_revision x number)) }
        ensures stays { StaysBy repository refusals is_mirror self.old self.new };

    /// The trees that it lends, of the revisions from 0 up.
    fn trees(&self) -> &[Tree]
        ensures { result.now ≡ lent self.now };
}

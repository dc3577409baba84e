//! What a port is asked for by a number that a client sent.

ghost use Rattle.std.specs.Prelude.{◌≡◌, ◌<◌, ◌≤◌, length, Some, None, IfOk, IfErr, OnOk, OnErr};
ghost use Rattle.std.specs.Option.{option_copied};
ghost use Rattle.node_base.specs.declared.refusal.Refusal.TheVariants as refusal;
ghost use Rattle.repo_core.specs.Repository.{Repository, head_of, props_at};
ghost use Rattle.repo_core.specs.Refusals.{with_value, wanted};
ghost use Rattle.repo_core.specs.Entries.{with_entry_in};
ghost use Rattle.repo_core.specs.declared.entry.Entry.TheVariants.{Mapped};
ghost use Rattle.ra_serve.specs.Answers.{asked};
ghost use Rattle.ra_serve.specs.Ports.{StaysBy, MayRefuse, no_revision, change_due, tree_of};
ghost use Rattle.ra_serve.specs.Tellings.{GoesOn};

use crate::fault::PortFault;
use crate::port::RepoPort;
use node_base::limits::REVISION;
use node_base::{PropName, Props, RevNo};
use path_tree::Tree;
use repo_core::Expected;

/// The revision of a number. NoSuchRevision (21) for one that no repository has.
pub fn revision<P: RepoPort>(port: &P, number: u64) -> Result<RevNo, PortFault>
    ensures number { IfOk result (λ n. n ≡ number) }
    ensures fault { IfErr result (λ f. f ≡ PortFault.NoSuchRevision) }
    ensures above { (x : Repository) → P.repository port.now ≡ Some x
        → OnErr result (no_revision x number ≡ Some refusal.NoSuchRevision) }
{
    port.is_repository();
    if number > REVISION as u64 {
        return Err(PortFault::NoSuchRevision);
    }
    Ok(RevNo::new(number as u16))
}

/// The revision that is asked for, the newest where none is named.
pub fn asked<P: RepoPort>(port: &mut P, number: Option<u64>) -> Result<RevNo, PortFault>
    ensures number { (x : Repository) → P.repository port.old ≡ Some x → IfOk result (λ n. n ≡ asked x number) }
    ensures refused { (x : Repository) → P.repository port.old ≡ Some x → IfErr result (λ f.
        MayRefuse (P.refusals port.old) (P.refusals port.new) f (no_revision x (asked x number))) }
    ensures stays { StaysBy P.repository P.refusals P.is_mirror port.old port.new }
{
    let Some(number) = number else {
        return port.latest();
    };
    match revision(port, number) {
        Ok(number) => Ok(number),
        Err(fault) => Err(fault),
    }
}

/// The number of the newest revision.
pub fn newest<P: RepoPort>(port: &mut P) -> Result<u64, PortFault>
    ensures head { (x : Repository) → P.repository port.old ≡ Some x → IfOk result (λ n. n ≡ head_of x.revisions) }
    ensures small { IfOk result (λ n. n ≤ REVISION) }
    ensures begun { (x : Repository) → P.repository port.old ≡ Some x → 0 < length x.revisions }
    ensures refused { (x : Repository) → P.repository port.old ≡ Some x → IfErr result (λ f.
        MayRefuse (P.refusals port.old) (P.refusals port.new) f None) }
    ensures stays { StaysBy P.repository P.refusals P.is_mirror port.old port.new }
{
    port.is_repository();
    match port.latest() {
        Ok(head) => Ok(u64::from(head.get())),
        Err(fault) => Err(fault),
    }
}

/// Its tree.
pub fn tree_asked<P: RepoPort>(
    port: &mut P,
    number: Option<u64>,
) -> Result<(RevNo, Tree), PortFault>
    ensures number { (x : Repository) → P.repository port.old ≡ Some x → IfOk result (λ t. t.0 ≡ asked x number) }
    ensures there { (x : Repository) → P.repository port.old ≡ Some x
        → OnOk result (no_revision x (asked x number) ≡ None) }
    ensures tree { (x : Repository) → P.repository port.old ≡ Some x
        → IfOk result (λ t. t.1 ≡ tree_of x (asked x number)) }
    ensures refused { (x : Repository) → P.repository port.old ≡ Some x → IfErr result (λ f.
        MayRefuse (P.refusals port.old) (P.refusals port.new) f (no_revision x (asked x number))) }
    ensures stays { StaysBy P.repository P.refusals P.is_mirror port.old port.new }
{
    let number = match asked(port, number) {
        Ok(number) => number,
        Err(fault) => return Err(fault),
    };
    match port.tree(number) {
        Ok(tree) => Ok((number, tree)),
        Err(fault) => Err(fault),
    }
}

/// The properties of a revision.
pub fn props_asked<P: RepoPort>(port: &mut P, number: u64) -> Result<Props, PortFault>
    ensures there { (x : Repository) → P.repository port.old ≡ Some x → OnOk result (no_revision x number ≡ None) }
    ensures props { (x : Repository) → P.repository port.old ≡ Some x
        → IfOk result (λ p. p ≡ props_at x.revisions number) }
    ensures refused { (x : Repository) → P.repository port.old ≡ Some x → IfErr result (λ f.
        MayRefuse (P.refusals port.old) (P.refusals port.new) f (no_revision x number)) }
    ensures stays { StaysBy P.repository P.refusals P.is_mirror port.old port.new }
{
    let number = match revision(port, number) {
        Ok(number) => number,
        Err(fault) => return Err(fault),
    };
    match port.props(number) {
        Ok(props) => Ok(props),
        Err(fault) => Err(fault),
    }
}

/// A change of one property of a revision.
pub fn change_asked<P: RepoPort>(
    port: &mut P,
    number: u64,
    name: &PropName,
    value: Option<&[u8]>,
    expected: &Expected,
) -> Result<(), PortFault>
    ensures made { (x : Repository) → P.repository port.old ≡ Some x → OnOk result (P.repository port.new
        ≡ Some (with_entry_in x
        (Mapped number (with_value (props_at x.revisions number) name.now (option_copied value.entry))))) }
    ensures taken { (x : Repository) → P.repository port.old ≡ Some x → OnOk result
        (change_due x number name.now (option_copied value.entry) (wanted expected.now) ≡ None) }
    ensures refused { (x : Repository) → P.repository port.old ≡ Some x
        → IfErr result (λ f. MayRefuse (P.refusals port.old) (P.refusals port.new) f
        (change_due x number name.now (option_copied value.entry) (wanted expected.now))) }
    ensures same { OnErr result (P.repository port.new ≡ P.repository port.old) }
    ensures goes { GoesOn P.refusals P.is_mirror port.old port.new }
{
    let number = match revision(port, number) {
        Ok(number) => number,
        Err(fault) => return Err(fault),
    };
    port.change_prop(number, name, value, expected)
}

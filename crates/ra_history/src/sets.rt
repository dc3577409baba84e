//! The sets that a history looks at.

ghost use Rattle.std.specs.Prelude.{◌≡◌, suc, take, IfOk, IfErr, Some, None};
ghost use Rattle.repo_core.specs.Repository.{Repository};
ghost use Rattle.ra_serve.specs.Ports.{MayRefuse, no_revision, set_of};
ghost use Rattle.ra_history.specs.Stops.{Finds, PortStays};

use crate::stop::SetsStop;
use dump_load::ChangeSet;
use node_base::RevNo;
use ra_serve::{PortFault, Replay, RepoPort};
use std::alloc::Global;

// The set of a revision.
fn set_at<P: RepoPort>(port: &mut P, number: RevNo) -> Result<ChangeSet, PortFault>
    ensures set { (x : Repository) → P.repository port.old ≡ Some x
        → IfOk result (λ s. (no_revision x number ≡ None) × (s ≡ set_of x number)) }
    ensures refused { (x : Repository) → P.repository port.old ≡ Some x
        → IfErr result (λ f. MayRefuse (P.refusals port.old) (P.refusals port.new) f (no_revision x number)) }
    ensures stays { PortStays P.RepoPort port.old port.new }
{
    match port.replay_of(number) {
        Ok(replay) => {
            let Replay { set, props: _ } = replay;
            Ok(set)
        }
        Err(fault) => Err(fault),
    }
}

// Puts the set of a revision behind those of the revisions before it.
fn push_set<P: RepoPort>(
    port: &mut P,
    number: RevNo,
    sets: &mut Vec<ChangeSet>,
) -> Result<(), SetsStop>
    ensures set { Finds P.RepoPort (λ x. no_revision x number)
        (λ x _. sets.old.items ≡ take number x.sets → sets.new.items ≡ take (suc number) x.sets)
        port.old port.new result }
    ensures stays { PortStays P.RepoPort port.old port.new }
{
    port.is_repository();
    let set = match set_at(port, number) {
        Ok(set) => set,
        Err(fault) => return Err(SetsStop::Port(fault)),
    };
    if sets.push(set).is_err() {
        return Err(SetsStop::OutOfMemory);
    }
    Ok(())
}

/// The sets of the revisions from 0 up to one, in their order. Texts and properties are shared with the repository.
/// NoSuchRevision (21) above the head.
pub fn sets_up_to<P: RepoPort>(
    alloc: Global,
    port: &mut P,
    last: RevNo,
) -> Result<Vec<ChangeSet>, SetsStop>
    ensures sets { Finds P.RepoPort (λ x. no_revision x last)
        (λ x v. v.items ≡ take (suc last) x.sets) port.old port.new result }
    ensures stays { PortStays P.RepoPort port.old port.new }
{
    let mut sets = Vec::new(alloc);
    for number in 0..last.get() {
        match push_set(port, RevNo::new(number), &mut sets) {
            Ok(()) => {}
            Err(stop) => return Err(stop),
        }
    }
    match push_set(port, last, &mut sets) {
        Ok(()) => Ok(sets),
        Err(stop) => Err(stop),
    }
}

//! The properties of revisions.

ghost use Rattle.std.specs.Prelude.{◌≡◌, suc, take};
ghost use Rattle.repo_core.specs.Repository.{Repository};
ghost use Rattle.ra_denial.specs.Denials.{no_revision};
ghost use Rattle.ra_denial.specs.Stops.{Finds, PortStays};
ghost use Rattle.ra_report.specs.Edits.{all_props};
ghost use Rattle.ra_report.specs.Planning.{AddsProps};

use node_base::{Props, RevNo};
use ra_denial::{Stop, stopped};
use ra_serve::RepoPort;
use std::alloc::Global;

// Puts the properties of a revision behind those of the revisions before it.
fn push_props<P: RepoPort>(port: &mut P, number: RevNo, all: &mut Vec<Props>) -> Result<(), Stop>
    ensures found { AddsProps P.RepoPort port.old port.new all.old.items all.new.items number result }
    ensures stays { PortStays P.RepoPort port.old port.new }
{
    let props = match port.props(number) {
        Ok(props) => props,
        Err(fault) => return Err(stopped(fault)),
    };
    if all.push(props).is_err() {
        return Err(Stop::OutOfMemory);
    }
    Ok(())
}

/// The properties of the revisions from 0 up to one, in their order. They are shared with the repository.
pub fn props_up_to<P: RepoPort>(
    alloc: Global,
    port: &mut P,
    last: RevNo,
) -> Result<Vec<Props>, Stop>
    ensures found { Finds P.RepoPort (λ x. no_revision x last)
        (λ x v. v.items ≡ take (suc last) (all_props x)) port.old port.new result }
    ensures stays { PortStays P.RepoPort port.old port.new }
{
    let mut all = Vec::new(alloc);
    for number in 0..last.get() {
        match push_props(port, RevNo::new(number), &mut all) {
            Ok(()) => {}
            Err(stop) => return Err(stop),
        }
    }
    match push_props(port, last, &mut all) {
        Ok(()) => Ok(all),
        Err(stop) => Err(stop),
    }
}

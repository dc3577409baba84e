//! What a log tells beside sets: properties and trees.

ghost use Rattle.std.specs.Prelude.{◌≡◌, suc, take, Some, None};
ghost use Rattle.repo_core.specs.Repository.{Repository, trees_of};
ghost use Rattle.ra_serve.specs.Ports.{no_revision};
ghost use Rattle.ra_history.specs.Rows.{props_of};
ghost use Rattle.ra_history.specs.Stops.{Finds, PortStays};

use crate::stop::SetsStop;
use node_base::{Props, RevNo};
use path_tree::Tree;
use ra_serve::RepoPort;
use std::alloc::Global;

// Puts the properties of a revision behind those of the revisions before it.
fn push_props<P: RepoPort>(
    port: &mut P,
    number: RevNo,
    row: &mut Vec<Props>,
) -> Result<(), SetsStop>
    ensures found { Finds P.RepoPort (λ x. no_revision x number)
        (λ x _. row.old.items ≡ take number (props_of x.revisions)
        → row.new.items ≡ take (suc number) (props_of x.revisions))
        port.old port.new result }
    ensures stays { PortStays P.RepoPort port.old port.new }
{
    let next = match port.props(number) {
        Ok(next) => next,
        Err(fault) => return Err(SetsStop::Port(fault)),
    };
    if row.push(next).is_err() {
        return Err(SetsStop::OutOfMemory);
    }
    Ok(())
}

/// The properties of the revisions from 0 up to one, in their order, shared with the repository. NoSuchRevision (21)
/// above the head.
pub fn props_up_to<P: RepoPort>(
    alloc: Global,
    port: &mut P,
    last: RevNo,
) -> Result<Vec<Props>, SetsStop>
    ensures found { Finds P.RepoPort (λ x. no_revision x last)
        (λ x v. v.items ≡ take (suc last) (props_of x.revisions)) port.old port.new result }
    ensures stays { PortStays P.RepoPort port.old port.new }
{
    let mut row = Vec::new(alloc);
    for number in 0..last.get() {
        match push_props(port, RevNo::new(number), &mut row) {
            Ok(()) => {}
            Err(stop) => return Err(stop),
        }
    }
    match push_props(port, last, &mut row) {
        Ok(()) => Ok(row),
        Err(stop) => Err(stop),
    }
}

// Puts the tree of a revision behind those of the revisions before it.
fn push_tree<P: RepoPort>(port: &mut P, number: RevNo, row: &mut Vec<Tree>) -> Result<(), SetsStop>
    ensures found { Finds P.RepoPort (λ x. no_revision x number)
        (λ x _. row.old.items ≡ take number (trees_of x.revisions)
        → row.new.items ≡ take (suc number) (trees_of x.revisions))
        port.old port.new result }
    ensures stays { PortStays P.RepoPort port.old port.new }
{
    let next = match port.tree(number) {
        Ok(next) => next,
        Err(fault) => return Err(SetsStop::Port(fault)),
    };
    if row.push(next).is_err() {
        return Err(SetsStop::OutOfMemory);
    }
    Ok(())
}

/// The trees of the revisions from 0 up to one, in their order, shared with the repository. NoSuchRevision (21) above
/// the head.
pub fn trees_up_to<P: RepoPort>(
    alloc: Global,
    port: &mut P,
    last: RevNo,
) -> Result<Vec<Tree>, SetsStop>
    ensures found { Finds P.RepoPort (λ x. no_revision x last)
        (λ x v. v.items ≡ take (suc last) (trees_of x.revisions)) port.old port.new result }
    ensures stays { PortStays P.RepoPort port.old port.new }
{
    let mut row = Vec::new(alloc);
    for number in 0..last.get() {
        match push_tree(port, RevNo::new(number), &mut row) {
            Ok(()) => {}
            Err(stop) => return Err(stop),
        }
    }
    match push_tree(port, last, &mut row) {
        Ok(()) => Ok(row),
        Err(stop) => Err(stop),
    }
}

//! What stands at a path of a revision, where the session stands.

ghost use Rattle.std.specs.Prelude.{◌≡◌, ◌++◌, None, IfOk, OnOk};
ghost use Rattle.std.specs.Option.{option_copied};
ghost use Rattle.std.specs.FinMap as finite;
ghost use Rattle.repo_core.specs.Repository.{Repository};
ghost use Rattle.ra_serve.specs.Answers.{asked, node_in};
ghost use Rattle.ra_serve.specs.Ports.{tree_of};
ghost use Rattle.ra_denial.specs.Denials.{no_revision};
ghost use Rattle.ra_denial.specs.Stops.{Finds, PortStays};
ghost use Rattle.ra_browse.specs.Answers.{made_for};
ghost use Rattle.ra_browse.specs.Tellings.{made_as, IsSeen};

use crate::made::{Made, made_at};
use node_base::{Node, NodeName, NodePath, RevNo};
use path_tree::Tree;
use ra_denial::{Stop, stopped};
use ra_serve::{RepoPort, tree_asked};
use std::alloc::{AllocError, Global};
use uuid::Uuid;

/// What was looked up: a tree and a path in it, with what is told of the node there beside itself.
#[derive(Drop)]
pub struct Seen {
    /// The revision.
    pub number: RevNo,
    /// Its tree.
    pub tree: Tree,
    /// The path, from the repository's root.
    pub names: Vec<NodeName>,
    /// The repository's identity.
    pub identity: Uuid,
    /// When and by whom the node was last changed.
    pub made: Made,
}

impl Seen {
    /// The node.
    pub fn node(&self) -> Option<&Node>
        ensures { option_copied result ≡ finite.get self.now.tree self.now.names.items }
    {
        self.tree.get(self.names.as_slice())
    }
}

/// Looks a path up that is relative to another, in the newest revision where none is named.
pub fn see<P: RepoPort>(
    alloc: Global,
    port: &mut P,
    base: &NodePath,
    path: &NodePath,
    number: Option<u64>,
) -> Result<Seen, Stop>
    ensures found { Finds P.RepoPort (λ x. no_revision x (asked x number))
        (λ x s. IsSeen x (base.now ++ path.now) number s) port.old port.new result }
    ensures stays { PortStays P.RepoPort port.old port.new }
{
    let Ok(names) = joined(alloc, base, path) else {
        return Err(Stop::OutOfMemory);
    };
    let (number, tree) = match tree_asked(port, number) {
        Ok(asked) => asked,
        Err(fault) => return Err(stopped(fault)),
    };
    let identity = port.identity();
    match made_for(alloc, port, tree.get(names.as_slice())) {
        Ok(made) => Ok(Seen {
            number,
            tree,
            names,
            identity,
            made,
        }),
        Err(stop) => Err(stop),
    }
}

// When and by whom a node was last changed.
fn made_for<P: RepoPort>(alloc: Global, port: &mut P, node: Option<&Node>) -> Result<Made, Stop>
    ensures found { Finds P.RepoPort (λ x. None)
        (λ x m. made_as m ≡ made_for x (option_copied node.entry)) port.old port.new result }
    ensures stays { PortStays P.RepoPort port.old port.new }
{
    match node {
        Some(node) => made_at(alloc, port, node.changed),
        None => Ok(Made::unknown()),
    }
}

/// A path behind another. It may be past the limits of paths.
pub fn joined(alloc: Global, base: &NodePath, path: &NodePath) -> Result<Vec<NodeName>, AllocError>
    ensures { IfOk result (λ v. v.items ≡ base.now ++ path.now) }
{
    let mut names = Vec::new(alloc);
    push_all(alloc, &mut names, base.names())?;
    push_all(alloc, &mut names, path.names())?;
    Ok(names)
}

// Puts names behind others.
fn push_all(alloc: Global, names: &mut Vec<NodeName>, more: &[NodeName]) -> Result<(), AllocError>
    ensures { OnOk result (names.new.items ≡ names.old.items ++ more.now) }
{
    let Some((first, others)) = more.split_first() else {
        return Ok(());
    };
    names.push(first.copy(alloc)?)?;
    push_all(alloc, names, others)
}

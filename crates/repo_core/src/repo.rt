//! A repository in memory.
ghost use Rattle.std.specs.Prelude.{◌≡◌, ◌<◌, ◌≤◌, length, slice_get, take, Some, None, IsSome, IfSome};
ghost use Rattle.std.specs.Prelude.{IsSomeAnd, OnOk, IfOk};
ghost use Rattle.std.specs.Option.{option_map, option_copied};
ghost use Rattle.node_base.specs.Props.{PropMap};
ghost use Rattle.node_base.specs.Tree.{PathMap};
ghost use Rattle.dump_load.specs.Trees.{Makes};
ghost use Rattle.repo_core.specs.Repository.{fresh, trees_of, tree_at, head_of, IsRepository};
ghost use Rattle.repo_core.specs.Entries.{Revised, Mapped, with_entry_in};
ghost use Rattle.repo_core.specs.Staging.{IsReady};

use crate::{Entry, Staged};
use dump_load::ChangeSet;
use node_base::limits::REVISION;
use node_base::{Props, RevNo};
use path_tree::Tree;
use std::alloc::{AllocError, Global};
use std::marker::Model;
use uuid::Uuid;

// How many revisions there can be: 0 to 65,535.
const REVISIONS: usize = REVISION as usize + 1;

/// A repository, seen by contracts as its identity, its revisions (each a tree and a property map), and the set of
/// changes that made the tree of each. Trees share what they have in common. Room for all revisions that can be is
/// made by `new`; of it only what is used is written.
#[derive(Drop)]
pub struct Repo {
    identity: Uuid,
    trees: Vec<Tree>,
    maps: Vec<Props>,
    sets: Vec<ChangeSet>,
}

impl Model for Repo {
    ghost use Rattle.repo_core.specs.Repository.{Repository, coded_repository};

    ghost Value = { Repository };

    ghost coded = { coded_repository };

    ghost use Rattle.repo_core.specs.Held.{repository_of, IsHeld};

    ghost view = { repository_of };

    ghost invariant = { IsHeld };
}

impl Repo {
    /// A repository with revision 0 alone: the root without properties, in a revision without properties.
    pub fn new(alloc: Global, identity: Uuid) -> Result<Repo, AllocError>
        ensures { IfOk result (λ r. r ≡ fresh identity) }
    {
        let mut trees = Vec::with_capacity(alloc, REVISIONS)?;
        let mut maps = Vec::with_capacity(alloc, REVISIONS)?;
        let mut sets = Vec::with_capacity(alloc, REVISIONS)?;
        trees.push_reserved(Tree::empty(alloc)?);
        maps.push_reserved(Props::empty());
        sets.push_reserved(ChangeSet::empty(alloc));
        Ok(Repo {
            identity,
            trees,
            maps,
            sets,
        })
    }

    /// Its identity, which never changes.
    pub fn identity(&self) -> Uuid
        ensures { result ≡ self.now.identity }
    {
        self.identity
    }

    /// The number of its newest revision.
    pub fn head(&self) -> RevNo
        ensures head { result ≡ head_of self.now.revisions }
        ensures begun { 0 < length self.now.revisions }
        ensures few { length self.now.revisions ≤ 65536 }
        ensures sets { length self.now.sets ≡ length self.now.revisions }
    {
        RevNo::new((self.trees.len() - 1) as u16)
    }

    /// Does nothing: its contract says what each repository is. Each set makes its tree from the trees before it,
    /// without a fault.
    pub fn is_repository(&self)
        ensures { IsRepository self.now }
    {
        let _ = &self.trees;
    }

    /// The trees of all revisions, from 0 on.
    pub fn trees(&self) -> &[Tree]
        ensures trees { result.now ≡ trees_of self.now.revisions }
        ensures count { length result.now ≡ length self.now.revisions }
    {
        self.trees.as_slice()
    }

    /// The tree of a revision; None above the head.
    pub fn tree(&self, number: RevNo) -> Option<&Tree>
        ensures { option_copied result ≡ tree_at self.now.revisions number }
    {
        self.trees.get(number.index())
    }

    /// The properties of a revision; None above the head.
    pub fn props(&self, number: RevNo) -> Option<&Props>
        ensures { option_copied result ≡ option_map (λ x. x.props) (slice_get self.now.revisions number) }
    {
        self.maps.get(number.index())
    }

    /// The changes that made the tree of a revision, which have no fault over the trees of the revisions before it;
    /// None above the head. Revision 0 has none.
    pub fn set(&self, number: RevNo) -> Option<&ChangeSet>
        ensures set { option_copied result ≡ slice_get self.now.sets number }
        ensures there { number < length self.now.revisions → IsSome result }
        ensures makes { IfSome result
            (λ s. IsSomeAnd (tree_at self.now.revisions number)
            (Makes (take number (trees_of self.now.revisions)) s.now)) }
    {
        self.is_repository();
        self.set_at(number)
    }

    // The set in that place.
    fn set_at(&self, number: RevNo) -> Option<&ChangeSet>
        ensures { option_copied result ≡ slice_get self.now.sets number }
    {
        self.sets.get(number.index())
    }

    /// Takes in what was staged. It needs no memory.
    pub fn install(&mut self, staged: Staged)
        requires { IsReady self.old.revisions staged }
        ensures { self.new ≡ with_entry_in self.old staged.entry }
    {
        let (entry, tree) = staged.into_parts();
        match entry {
            Entry::Revised {
                number: _,
                set,
                props,
            } => match tree {
                Some(tree) => self.push(set, props, tree),
                None => unreachable!(),
            },
            Entry::Mapped { number, props } => self.replace(number, props),
        }
    }

    // The revision after the head.
    fn push(&mut self, set: ChangeSet, props: Props, tree: Tree)
        requires room { length self.old.revisions ≤ REVISION }
        requires made { Makes (trees_of self.old.revisions) set tree }
        ensures { self.new ≡ with_entry_in self.old (Revised (length self.old.revisions) set props) }
    {
        self.trees.push_reserved(tree);
        self.maps.push_reserved(props);
        self.sets.push_reserved(set);
    }

    // Other properties for a revision that is there.
    fn replace(&mut self, number: RevNo, props: Props)
        requires { number < length self.old.revisions }
        ensures { self.new ≡ with_entry_in self.old (Mapped number props) }
    {
        self.maps[number.index()] = props;
    }
}

//! Children of a node, each under its name, and names that are sought among them.
ghost use Rattle.std.specs.Prelude.{◌≡◌, ◌≤◌, IsSome, IfOk, OnOk, OnErr};
ghost use Rattle.std.specs.FinMap as map;
ghost use Rattle.node_base.specs.Path.{Path, name_cmp};
ghost use Rattle.path_tree.specs.Edits.{edit_at, marked_by};
ghost use Rattle.path_tree.specs.Heads.{IsHeaded};
ghost use Rattle.path_tree.specs.Reach.{reach_to};

use crate::branch::Branch;
use crate::edit::Edit;
use crate::head::head;
use crate::order::compare;
use crate::reach::Reach;
use node_base::{NodeName, RevNo};
use std::alloc::{AllocError, Global};
use std::cmp::Ordering;
use std::marker::Model;
use std::sync::Arc;

/// A child, shared by its owners, seen by contracts as its name and its branch.
#[cycle(tree)]
#[derive(Drop)]
pub struct Child {
    entry: Arc<Entry>,
}

#[cycle(tree)]
#[derive(Drop)]
struct Entry {
    // That of the name. It tells most names apart, so that a search seldom looks at their bytes.
    head: u64,
    // How far the paths to the child and below it reach.
    reach: Reach,
    // All copies of a child share it.
    name: Arc<NodeName>,
    branch: Branch,
}

impl Model for Child {
    ghost use Rattle.std.specs.Arc.{arc_value};
    ghost use Rattle.std.specs.Coded.{coded×};
    ghost use Rattle.node_base.specs.Path.{Name, coded_name};
    ghost use Rattle.node_base.specs.Tree.{PathMap, coded_tree};
    ghost use Rattle.path_tree.specs.Rows.{IsChild, entry_size};

    ghost Value = { Name × PathMap };

    ghost coded = { coded× coded_name coded_tree };

    ghost view = { λ a. (arc_value (arc_value a.entry).name, (arc_value a.entry).branch) };

    ghost invariant = { λ a. IsChild (arc_value a.entry).head (arc_value a.entry).reach
        (arc_value (arc_value a.entry).name, (arc_value a.entry).branch) };

    ghost size = { entry_size };

    ghost use Rattle.path_tree.specs.RowLemmas.{child_falls};

    ghost size_decreases = { λ a h. child_falls a };
}

impl Child {
    /// A branch under a name.
    pub fn new(alloc: Global, name: NodeName, branch: Branch) -> Result<Child, AllocError>
        ensures { IfOk result (λ c. c ≡ (name, branch)) }
    {
        let head = head(&name);
        let reach = branch.reach_behind(&name);
        let name = Arc::new(alloc, name)?;
        let entry = Entry {
            head,
            reach,
            name,
            branch,
        };
        Ok(Child {
            entry: Arc::new(alloc, entry)?,
        })
    }

    /// The same child for another owner.
    pub fn share(&self) -> Result<Child, AllocError>
        ensures { IfOk result (λ c. c ≡ self.now) }
    {
        Ok(Child {
            entry: Arc::try_clone(&self.entry)?,
        })
    }

    /// Its name.
    pub fn name(&self) -> &NodeName
        ensures { result.now ≡ self.now.0 }
    {
        &self.entry.name
    }

    /// Its branch.
    pub fn branch(&self) -> &Branch
        ensures { result.now ≡ self.now.1 }
    {
        &self.entry.branch
    }

    /// How far the paths to it and below it reach. It has its root at least.
    pub fn reach(&self) -> Reach
        ensures reach { result ≡ reach_to self.now }
        ensures rooted { 1 ≤ map.len self.now.1 }
    {
        self.entry.reach
    }

    /// The order of its name and that of another child.
    pub fn compare(&self, other: &Child) -> Ordering
        ensures { result ≡ name_cmp self.now.0 other.now.0 }
    {
        compare_to(self.entry.head, &self.entry.name, other)
    }

    /// Edits it at a path below it, and gives the number on the way. One that is shared is copied.
    #[cycle(alters)]
    pub fn alter(
        &mut self,
        alloc: Global,
        path: &[NodeName],
        edit: &Edit,
        number: Option<RevNo>,
    ) -> Result<(), AllocError>
        requires { IsSome (map.get self.old.1 path.now) }
        ensures name { self.new.0 ≡ self.old.0 }
        ensures ok { OnOk result ((q : Path) → map.get self.new.1 q
            ≡ edit_at edit.now (marked_by number (map.get self.old.1) path.now) path.now q) }
        ensures err { OnErr result (self.new ≡ self.old) }
    {
        if let Some(own) = Arc::get_mut(&mut self.entry) {
            own.branch.alter(alloc, path, edit, number)?;
            own.reach = own.branch.reach_behind(&own.name);
            return Ok(());
        }
        *self = self.edited(alloc, path, edit, number)?;
        Ok(())
    }

    /// The child with the edit at a path below it, and with the number on the way.
    #[cycle(alters)]
    pub fn edited(
        &self,
        alloc: Global,
        path: &[NodeName],
        edit: &Edit,
        number: Option<RevNo>,
    ) -> Result<Child, AllocError>
        requires { IsSome (map.get self.now.1 path.now) }
        ensures name { IfOk result (λ c. c.0 ≡ self.now.0) }
        ensures altered { IfOk result (λ c. (q : Path) → map.get c.1 q
            ≡ edit_at edit.now (marked_by number (map.get self.now.1) path.now) path.now q) }
    {
        let head = self.entry.head;
        let name = Arc::try_clone(&self.entry.name)?;
        let mut branch = self.branch().again()?;
        branch.alter(alloc, path, edit, number)?;
        let reach = branch.reach_behind(&name);
        let entry = Entry {
            head,
            reach,
            name,
            branch,
        };
        Ok(Child {
            entry: Arc::new(alloc, entry)?,
        })
    }
}

/// A name that is sought among children, seen by contracts as its bytes.
#[derive(Drop)]
pub struct Sought<'a> {
    head: u64,
    name: &'a NodeName,
}

impl<'a> Model for Sought<'a> {
    ghost use Rattle.node_base.specs.Path.{Name, coded_name};
    ghost use Rattle.path_tree.specs.Heads.{IsHeaded};

    ghost Value = { Name };

    ghost coded = { coded_name };

    ghost view = { λ a. a.name.now };

    ghost invariant = { λ a. IsHeaded a.head a.name.now };
}

impl<'a> Sought<'a> {
    /// A name, to be sought.
    pub fn of(name: &'a NodeName) -> Sought<'a>
        ensures { result ≡ name.now }
    {
        Sought {
            head: head(name),
            name,
        }
    }

    /// The order of the name and that of a child.
    pub fn compare(&self, child: &Child) -> Ordering
        ensures { result ≡ name_cmp self.now child.now.0 }
    {
        compare_to(self.head, self.name, child)
    }
}

// The order of a name and that of a child. Most names are told apart by their heads.
fn compare_to(head: u64, name: &NodeName, child: &Child) -> Ordering
    requires { IsHeaded head name.now }
    ensures { result ≡ name_cmp name.now child.now.0 }
{
    match head.cmp(&child.entry.head) {
        Ordering::Less => Ordering::Less,
        Ordering::Equal => compare(name, &child.entry.name),
        Ordering::Greater => Ordering::Greater,
    }
}

//! The children of a node: a balanced search tree, whose parts are shared by all rows that have them.
ghost use Rattle.std.specs.Prelude.{◌≡◌, ◌++◌, ◌∷◌, ◌≤◌, IfOk, OnOk, OnErr, IsSome, MatchOption, None, Some};
ghost use Rattle.std.specs.Prelude.{if◌then◌else◌};
ghost use Rattle.std.specs.Arc.{arc_value};
ghost use Rattle.std.specs.List.{flat_map};
ghost use Rattle.std.specs.FinMap as map;
ghost use Rattle.std.specs.FinMap.Entries.{put, where_key};
ghost use Rattle.node_base.specs.Path.{name_cmp};
ghost use Rattle.node_base.specs.Path.{Path};
ghost use Rattle.path_tree.specs.Edits.{ChildAlters, edit_at, marked_by};
ghost use Rattle.path_tree.specs.InOrder.{to_come};
ghost use Rattle.path_tree.specs.Joined.{AreChildren, behind, below, child_at, under};
ghost use Rattle.path_tree.specs.Listed.{shown, shown_names};
ghost use Rattle.path_tree.specs.Reach.{reach_of};
ghost use Rattle.path_tree.specs.Rows.{in_row, differs};
ghost use Rattle.path_tree.specs.Visited.{texts};

use crate::Entry;
use crate::branch::Branch;
use crate::child::{Child, Sought};
use crate::edit::Edit;
use crate::reach::Reach;
use crate::visit::Visitor;
use node_base::{NodeName, RevNo};
use std::alloc::{AllocError, Global};
use std::cmp::Ordering;
use std::marker::Model;
use std::sync::Arc;

/// Children in the order of their names.
pub type Row = Option<Arc<Twig>>;

/// A child, with the rows of those before it and of those behind it.
#[cycle(tree)]
#[derive(Drop)]
pub struct Twig {
    child: Child,
    before: Option<Arc<Twig>>,
    behind: Option<Arc<Twig>>,
    // The most twigs that stand above one another, this one on top.
    height: u8,
    // How far the paths to these children and below them reach, so that no question about limits goes down.
    reach: Reach,
}

impl Model for Twig {
    ghost use Rattle.std.specs.Prelude.{◌++◌, ◌∷◌};
    ghost use Rattle.std.specs.Arc.{arc_value};
    ghost use Rattle.path_tree.specs.Rows.{Children, coded_children};

    ghost Value = { Children };

    ghost coded = { coded_children };

    ghost use Rattle.path_tree.specs.Rows.{in_row, IsTwig, row_size};

    ghost view = { λ a. in_row a.before ++ a.child ∷ in_row a.behind };

    ghost invariant = { λ a. IsTwig (in_row a.before) a.child (in_row a.behind) a.reach };

    ghost size = { row_size };

    ghost use Rattle.path_tree.specs.RowLemmas.{twig_falls};

    ghost size_decreases = { λ a h. twig_falls a h };
}

// How high the twigs of a row stand.
fn height(row: &Row) -> u8 {
    match row {
        Some(top) => {
            let twig: &Twig = top;
            twig.height
        }
        None => 0,
    }
}

/// How far the paths to the children and below them reach.
pub fn reach_in(row: &Row) -> Reach
    ensures { result ≡ reach_of (in_row row.now) }
{
    match row {
        Some(top) => {
            let twig: &Twig = top;
            twig.reach
        }
        None => Reach::nowhere(),
    }
}

/// The same children for another owner.
pub fn shared(row: &Row) -> Result<Row, AllocError>
    ensures { IfOk result (λ r. in_row r ≡ in_row row.now) }
{
    match row {
        Some(top) => Ok(Some(Arc::try_clone(top)?)),
        None => Ok(None),
    }
}

/// The branch of the child of that name.
pub fn child_of<'a>(row: &'a Row, name: &NodeName) -> Option<&'a Branch>
    requires { AreChildren (in_row row.now) }
    ensures { MatchOption result (map.find name_cmp name.now (in_row row.now) ≡ None)
        (λ b. map.find name_cmp name.now (in_row row.now) ≡ Some b.now) }
{
    seek(row, &Sought::of(name))
}

// The same where the name's head is known.
fn seek<'a>(row: &'a Row, name: &Sought<'_>) -> Option<&'a Branch>
    requires { AreChildren (in_row row.now) }
    ensures { MatchOption result (map.find name_cmp name.now (in_row row.now) ≡ None)
        (λ b. map.find name_cmp name.now (in_row row.now) ≡ Some b.now) }
{
    match row {
        Some(top) => {
            let twig: &Twig = top;
            match name.compare(&twig.child) {
                Ordering::Less => seek(&twig.before, name),
                Ordering::Equal => Some(twig.child.branch()),
                Ordering::Greater => seek(&twig.behind, name),
            }
        }
        None => None,
    }
}

// A child between two rows, as they stand.
fn joint(alloc: Global, before: Row, child: Child, behind: Row) -> Result<Row, AllocError>
    ensures { IfOk result (λ r. in_row r ≡ in_row before ++ child ∷ in_row behind) }
{
    let height = height_over(&before, &behind);
    let reach = reach_over(&before, &child, &behind);
    let twig = Twig {
        child,
        before,
        behind,
        height,
        reach,
    };
    Ok(Some(Arc::new(alloc, twig)?))
}

// The same, with the top of those before the child above it, or the top of the row between the two, where that one
// is the higher.
fn lifted_before(alloc: Global, top: &Twig, child: Child, behind: Row) -> Result<Row, AllocError>
    ensures { IfOk result (λ r. in_row r ≡ top.now ++ child ∷ in_row behind) }
{
    let outer = shared(&top.before)?;
    let here = top.child.share()?;
    if height(&top.before) < height(&top.behind) {
        if let Some(between) = &top.behind {
            let inner: &Twig = between;
            let left = joint(alloc, outer, here, shared(&inner.before)?)?;
            let right = joint(alloc, shared(&inner.behind)?, child, behind)?;
            return joint(alloc, left, inner.child.share()?, right);
        }
    }
    let lower = joint(alloc, shared(&top.behind)?, child, behind)?;
    joint(alloc, outer, here, lower)
}

// The same from the other side.
fn lifted_behind(alloc: Global, before: Row, child: Child, top: &Twig) -> Result<Row, AllocError>
    ensures { IfOk result (λ r. in_row r ≡ in_row before ++ child ∷ top.now) }
{
    let outer = shared(&top.behind)?;
    let here = top.child.share()?;
    if height(&top.behind) < height(&top.before) {
        if let Some(between) = &top.before {
            let inner: &Twig = between;
            let left = joint(alloc, before, child, shared(&inner.before)?)?;
            let right = joint(alloc, shared(&inner.behind)?, here, outer)?;
            return joint(alloc, left, inner.child.share()?, right);
        }
    }
    let lower = joint(alloc, before, child, shared(&top.before)?)?;
    joint(alloc, lower, here, outer)
}

// A child between two rows, in balance where each was and one child came or went since.
fn balanced(alloc: Global, before: Row, child: Child, behind: Row) -> Result<Row, AllocError>
    ensures { IfOk result (λ r. in_row r ≡ in_row before ++ child ∷ in_row behind) }
{
    if height(&before) > height(&behind).saturating_add(1) {
        return match before {
            Some(top) => lifted_before(alloc, &top, child, behind),
            None => joint(alloc, None, child, behind),
        };
    }
    if height(&behind) > height(&before).saturating_add(1) {
        return match behind {
            Some(top) => lifted_behind(alloc, before, child, &top),
            None => joint(alloc, before, child, None),
        };
    }
    joint(alloc, before, child, behind)
}

/// The row with a child in its place, or in the place of the one of its name.
pub fn with(alloc: Global, row: &Row, child: &Child) -> Result<Row, AllocError>
    requires { AreChildren (in_row row.now) }
    ensures { IfOk result (λ r. in_row r
        ≡ put name_cmp child.now.0 child.now.1 (in_row row.now)) }
{
    match row {
        Some(top) => {
            let twig: &Twig = top;
            match child.compare(&twig.child) {
                Ordering::Less => {
                    let before = with(alloc, &twig.before, child)?;
                    let here = twig.child.share()?;
                    balanced(alloc, before, here, shared(&twig.behind)?)
                }
                Ordering::Equal => {
                    let before = shared(&twig.before)?;
                    let behind = shared(&twig.behind)?;
                    joint(alloc, before, child.share()?, behind)
                }
                Ordering::Greater => {
                    let behind = with(alloc, &twig.behind, child)?;
                    let here = twig.child.share()?;
                    balanced(alloc, shared(&twig.before)?, here, behind)
                }
            }
        }
        None => joint(alloc, None, child.share()?, None),
    }
}

/// The row with a branch under that name.
pub fn with_branch(
    alloc: Global,
    row: &Row,
    name: &NodeName,
    branch: Branch,
) -> Result<Row, AllocError>
    requires { AreChildren (in_row row.now) }
    ensures { IfOk result (λ r. in_row r ≡ put name_cmp name.now branch (in_row row.now)) }
{
    let child = Child::new(alloc, name.copy(alloc)?, branch)?;
    with(alloc, row, &child)
}

// How high a twig over two rows stands.
fn height_over(before: &Row, behind: &Row) -> u8 {
    height(before).max(height(behind)).saturating_add(1)
}

// How far the paths to a child, and to those before it and behind it, reach.
fn reach_over(before: &Row, child: &Child, behind: &Row) -> Reach
    ensures reach { result ≡ reach_of (in_row before.now ++ child.now ∷ in_row behind.now) }
    ensures rooted { 1 ≤ map.len child.now.1 }
{
    let front = reach_in(before).either(child.reach());
    front.either(reach_in(behind))
}

// Whether the rows of its top are as high as each other but for one.
fn is_balanced(row: &Row) -> bool {
    match row {
        Some(top) => {
            let twig: &Twig = top;
            let (front, back) = (height(&twig.before), height(&twig.behind));
            front <= back.saturating_add(1) && back <= front.saturating_add(1)
        }
        None => true,
    }
}

// The same children in balance, where one came or went since they were.
fn turned(alloc: Global, row: &Row) -> Result<Row, AllocError>
    ensures { IfOk result (λ r. in_row r ≡ in_row row.now) }
{
    match row {
        Some(top) => {
            let twig: &Twig = top;
            let before = shared(&twig.before)?;
            let here = twig.child.share()?;
            let behind = shared(&twig.behind)?;
            balanced(alloc, before, here, behind)
        }
        None => Ok(None),
    }
}

// Brings a row into balance. Without memory for that it stays as it is: how high it stands is no matter of what it has.
fn turn(alloc: Global, row: &mut Row)
    ensures { in_row row.new ≡ in_row row.old }
{
    if is_balanced(row) {
        return;
    }
    if let Ok(other) = turned(alloc, row) {
        *row = other;
    }
}

// Puts a child in its place between two rows, or in the place of the one between them.
#[cycle(puts)]
fn put_beside(
    alloc: Global,
    before: &mut Row,
    here: &mut Child,
    behind: &mut Row,
    child: &Child,
) -> Result<(), AllocError>
    requires { AreChildren (in_row before.old ++ here.old ∷ in_row behind.old) }
    ensures ok { OnOk result (in_row before.new ++ here.new ∷ in_row behind.new
        ≡ put name_cmp child.now.0 child.now.1
        (in_row before.old ++ here.old ∷ in_row behind.old)) }
    ensures err { OnErr result ((in_row before.new ≡ in_row before.old) × (here.new ≡ here.old)
        × (in_row behind.new ≡ in_row behind.old)) }
{
    match child.compare(here) {
        Ordering::Less => put_in(alloc, before, child),
        Ordering::Equal => {
            *here = child.share()?;
            Ok(())
        }
        Ordering::Greater => put_in(alloc, behind, child),
    }
}

// Puts a child in its place where nobody shares the top, and says whether it did.
#[cycle(puts)]
fn put_own(alloc: Global, row: &mut Row, child: &Child) -> Result<bool, AllocError>
    requires { AreChildren (in_row row.old) }
    ensures done { IfOk result (λ done. in_row row.new ≡ (if done
        then put name_cmp child.now.0 child.now.1 (in_row row.old) else in_row row.old)) }
    ensures err { OnErr result (in_row row.new ≡ in_row row.old) }
{
    let Some(top) = row else {
        return Ok(false);
    };
    let Some(twig) = Arc::get_mut(top) else {
        return Ok(false);
    };
    twig.put_under(alloc, child)?;
    Ok(true)
}

/// Puts a child in its place, or in the place of the one of its name. What nobody shares is changed where it stands.
#[cycle(puts)]
pub fn put_in(alloc: Global, row: &mut Row, child: &Child) -> Result<(), AllocError>
    requires { AreChildren (in_row row.old) }
    ensures ok { OnOk result (in_row row.new
        ≡ put name_cmp child.now.0 child.now.1 (in_row row.old)) }
    ensures err { OnErr result (in_row row.new ≡ in_row row.old) }
{
    if put_own(alloc, row, child)? {
        turn(alloc, row);
        return Ok(());
    }
    *row = with(alloc, row, child)?;
    Ok(())
}

// Edits the child of that name between two rows or in them, at a path below it.
#[cycle(alters)]
fn alter_beside(
    alloc: Global,
    before: &mut Row,
    here: &mut Child,
    behind: &mut Row,
    name: &Sought<'_>,
    path: &[NodeName],
    edit: &Edit,
    number: Option<RevNo>,
) -> Result<(), AllocError>
    requires children { AreChildren (in_row before.old ++ here.old ∷ in_row behind.old) }
    requires rooted { 1 ≤ map.len here.old.1 }
    requires there { IsSome (child_at (in_row before.old ++ here.old ∷ in_row behind.old) name.now path.now) }
    ensures ok { OnOk result (ChildAlters (in_row before.old ++ here.old ∷ in_row behind.old)
        (in_row before.new ++ here.new ∷ in_row behind.new) name.now path.now edit.now number) }
    ensures err { OnErr result ((in_row before.new ≡ in_row before.old) × (here.new ≡ here.old)
        × (in_row behind.new ≡ in_row behind.old)) }
{
    match name.compare(here) {
        Ordering::Less => alter_sought(alloc, before, name, path, edit, number),
        Ordering::Equal => here.alter(alloc, path, edit, number),
        Ordering::Greater => alter_sought(alloc, behind, name, path, edit, number),
    }
}

// The row with the edit of the child of that name at a path below it, and with the number on the way. Its twigs on
// the way are made anew.
#[cycle(alters)]
fn altered(
    alloc: Global,
    row: &Row,
    name: &Sought<'_>,
    path: &[NodeName],
    edit: &Edit,
    number: Option<RevNo>,
) -> Result<Row, AllocError>
    requires children { AreChildren (in_row row.now) }
    requires there { IsSome (child_at (in_row row.now) name.now path.now) }
    ensures { IfOk result (λ r. ChildAlters (in_row row.now) (in_row r) name.now path.now edit.now number) }
{
    let Some(top) = row else { unreachable!() };
    let twig: &Twig = top;
    match name.compare(&twig.child) {
        Ordering::Less => {
            let before = altered(alloc, &twig.before, name, path, edit, number)?;
            let here = twig.child.share()?;
            joint(alloc, before, here, shared(&twig.behind)?)
        }
        Ordering::Equal => {
            let before = shared(&twig.before)?;
            let behind = shared(&twig.behind)?;
            let here = twig.child.edited(alloc, path, edit, number)?;
            joint(alloc, before, here, behind)
        }
        Ordering::Greater => {
            let behind = altered(alloc, &twig.behind, name, path, edit, number)?;
            let here = twig.child.share()?;
            joint(alloc, shared(&twig.before)?, here, behind)
        }
    }
}

/// Edits the child of that name at a path below it, and gives the number on the way. What nobody shares is changed
/// where it stands, and else copied.
#[cycle(alters)]
pub fn alter_in(
    alloc: Global,
    row: &mut Row,
    name: &NodeName,
    path: &[NodeName],
    edit: &Edit,
    number: Option<RevNo>,
) -> Result<(), AllocError>
    requires children { AreChildren (in_row row.old) }
    requires there { IsSome (child_at (in_row row.old) name.now path.now) }
    ensures ok { OnOk result (ChildAlters (in_row row.old) (in_row row.new) name.now path.now edit.now number) }
    ensures err { OnErr result (in_row row.new ≡ in_row row.old) }
{
    alter_sought(alloc, row, &Sought::of(name), path, edit, number)
}

// The same where the name's head is known.
#[cycle(alters)]
fn alter_sought(
    alloc: Global,
    row: &mut Row,
    name: &Sought<'_>,
    path: &[NodeName],
    edit: &Edit,
    number: Option<RevNo>,
) -> Result<(), AllocError>
    requires children { AreChildren (in_row row.old) }
    requires there { IsSome (child_at (in_row row.old) name.now path.now) }
    ensures ok { OnOk result (ChildAlters (in_row row.old) (in_row row.new) name.now path.now edit.now number) }
    ensures err { OnErr result (in_row row.new ≡ in_row row.old) }
{
    let Some(top) = row else { unreachable!() };
    if let Some(twig) = Arc::get_mut(top) {
        return twig.alter_under(alloc, name, path, edit, number);
    }
    *row = altered(alloc, row, name, path, edit, number)?;
    Ok(())
}

impl Twig {
    // Puts a child in its place beside its own, or in the place of that.
    #[cycle(puts)]
    fn put_under(&mut self, alloc: Global, child: &Child) -> Result<(), AllocError>
        requires { AreChildren self.old }
        ensures ok { OnOk result (self.new
            ≡ put name_cmp child.now.0 child.now.1 self.old) }
        ensures err { OnErr result (self.new ≡ self.old) }
    {
        put_beside(
            alloc,
            &mut self.before,
            &mut self.child,
            &mut self.behind,
            child,
        )?;
        self.height = height_over(&self.before, &self.behind);
        self.reach = reach_over(&self.before, &self.child, &self.behind);
        Ok(())
    }

    // Edits the child of that name at a path below it.
    #[cycle(alters)]
    fn alter_under(
        &mut self,
        alloc: Global,
        name: &Sought<'_>,
        path: &[NodeName],
        edit: &Edit,
        number: Option<RevNo>,
    ) -> Result<(), AllocError>
        requires children { AreChildren self.old }
        requires there { IsSome (child_at self.old name.now path.now) }
        ensures ok { OnOk result (ChildAlters self.old self.new name.now path.now edit.now number) }
        ensures err { OnErr result (self.new ≡ self.old) }
    {
        alter_beside(
            alloc,
            &mut self.before,
            &mut self.child,
            &mut self.behind,
            name,
            path,
            edit,
            number,
        )?;
        let reach = reach_over(&self.before, &self.child, &self.behind);
        self.reach = reach;
        Ok(())
    }
}

// The first child, and the row of the others.
fn parted(alloc: Global, twig: &Twig) -> Result<(Child, Row), AllocError>
    ensures { IfOk result (λ p. p.0 ∷ in_row p.1 ≡ twig.now) }
{
    match &twig.before {
        Some(before) => {
            let (first, others) = parted(alloc, before)?;
            let here = twig.child.share()?;
            Ok((first, balanced(alloc, others, here, shared(&twig.behind)?)?))
        }
        None => Ok((twig.child.share()?, shared(&twig.behind)?)),
    }
}

// The children of one row, and then those of another.
fn both(alloc: Global, before: &Row, behind: &Row) -> Result<Row, AllocError>
    ensures { IfOk result (λ r. in_row r ≡ in_row before.now ++ in_row behind.now) }
{
    match behind {
        Some(top) => {
            let (first, others) = parted(alloc, top)?;
            balanced(alloc, shared(before)?, first, others)
        }
        None => shared(before),
    }
}

/// The row without the child of that name, if there is one.
pub fn without(alloc: Global, row: &Row, name: &NodeName) -> Result<Row, AllocError>
    requires { AreChildren (in_row row.now) }
    ensures { IfOk result (λ r. in_row r ≡ where_key name_cmp (differs name.now) (in_row row.now)) }
{
    without_sought(alloc, row, &Sought::of(name))
}

// The same where the name's head is known.
fn without_sought(alloc: Global, row: &Row, name: &Sought<'_>) -> Result<Row, AllocError>
    requires { AreChildren (in_row row.now) }
    ensures { IfOk result (λ r. in_row r ≡ where_key name_cmp (differs name.now) (in_row row.now)) }
{
    match row {
        Some(top) => {
            let twig: &Twig = top;
            match name.compare(&twig.child) {
                Ordering::Less => {
                    let before = without_sought(alloc, &twig.before, name)?;
                    let here = twig.child.share()?;
                    balanced(alloc, before, here, shared(&twig.behind)?)
                }
                Ordering::Equal => both(alloc, &twig.before, &twig.behind),
                Ordering::Greater => {
                    let behind = without_sought(alloc, &twig.behind, name)?;
                    let here = twig.child.share()?;
                    balanced(alloc, shared(&twig.before)?, here, behind)
                }
            }
        }
        None => Ok(None),
    }
}

// Adds the nodes of a child with their paths, in path order.
#[cycle(lists)]
fn list_child<'a>(
    child: &'a Child,
    alloc: Global,
    above: &mut Vec<&'a NodeName>,
    out: &mut Vec<Entry<'a>>,
) -> Result<(), AllocError>
    ensures listed { OnOk result (shown out.new.items
        ≡ shown out.old.items ++ under (shown_names above.old.items) (behind child.now.0 (map.entries child.now.1))) }
    ensures above { OnOk result (shown_names above.new.items ≡ shown_names above.old.items) }
{
    above.push(child.name())?;
    child.branch().list_into(alloc, above, out)?;
    let _ = above.pop();
    Ok(())
}

/// Adds the nodes of each child with their paths, in path order. The names above come back as they were.
#[cycle(lists)]
pub fn list_row<'a>(
    row: &'a Row,
    alloc: Global,
    above: &mut Vec<&'a NodeName>,
    out: &mut Vec<Entry<'a>>,
) -> Result<(), AllocError>
    ensures listed { OnOk result (shown out.new.items
        ≡ shown out.old.items ++ under (shown_names above.old.items) (below (in_row row.now))) }
    ensures above { OnOk result (shown_names above.new.items ≡ shown_names above.old.items) }
{
    match row {
        Some(top) => {
            let twig: &Twig = top;
            list_row(&twig.before, alloc, above, out)?;
            list_child(&twig.child, alloc, above, out)?;
            list_row(&twig.behind, alloc, above, out)
        }
        None => Ok(()),
    }
}

/// A child that is to come, and the row of those behind it.
#[derive(Drop)]
pub struct Waiting<'a> {
    pub child: &'a Child,
    pub behind: &'a Row,
}

/// Lets the children of a row come first, before those that are waiting. The last that waits comes first.
pub fn let_come<'a>(row: &'a Row, waiting: &mut Vec<Waiting<'a>>) -> Result<(), AllocError>
    ensures { OnOk result (to_come waiting.new.items ≡ in_row row.now ++ to_come waiting.old.items) }
{
    match row {
        Some(top) => {
            let twig: &Twig = top;
            waiting.push(Waiting {
                child: &twig.child,
                behind: &twig.behind,
            })?;
            let_come(&twig.before, waiting)
        }
        None => Ok(()),
    }
}

// Shows the nodes of a child with their paths' texts, in path order.
#[cycle(visits)]
fn visit_child<V: Visitor>(
    child: &Child,
    above: &mut Vec<u8>,
    visitor: &mut V,
) -> Result<(), AllocError>
    ensures said { OnOk result (V.said visitor.new ≡ V.said visitor.old ++ flat_map V.line
        (texts above.old.items (behind child.now.0 (map.entries child.now.1)))) }
    ensures above { OnOk result (above.new.items ≡ above.old.items) }
{
    let len = above.as_slice().len();
    above.push(b'/')?;
    above.extend_from_slice(child.name().as_str().as_bytes())?;
    child.branch().visit_into(above, visitor)?;
    above.truncate(len);
    Ok(())
}

/// Shows the nodes of each child with their paths' texts, in path order. The text above comes back as it was.
#[cycle(visits)]
pub fn visit_row<V: Visitor>(
    row: &Row,
    above: &mut Vec<u8>,
    visitor: &mut V,
) -> Result<(), AllocError>
    ensures said { OnOk result (V.said visitor.new ≡ V.said visitor.old ++ flat_map V.line
        (texts above.old.items (below (in_row row.now)))) }
    ensures above { OnOk result (above.new.items ≡ above.old.items) }
{
    match row {
        Some(top) => {
            let twig: &Twig = top;
            visit_row(&twig.before, above, visitor)?;
            visit_child(&twig.child, above, visitor)?;
            visit_row(&twig.behind, above, visitor)
        }
        None => Ok(()),
    }
}

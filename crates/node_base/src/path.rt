//! Paths of nodes.
ghost use Rattle.std.specs.Prelude.{◌≡◌, ◌≤◌, [], ◌++◌, ◌∷◌, length, IfOk, MatchOption, None, Some, Ok, Err, IfErr};
ghost use Rattle.std.specs.Prelude.{true, false, nat_lt, codes};
ghost use Rattle.std.specs.Cmp.{IsTotalOrder, eq_by_cmp_equiv, partial_equiv_from_equiv, partial_order_from_total};
ghost use Rattle.std.specs.Cmp.Rules.{comparing};
ghost use Rattle.std.proofs.Common.{rules, refl};
ghost use Rattle.std.specs.FinMap.{IsAntisymmetric};
ghost use Rattle.std.specs.declared.cmp.Ordering.TheVariants.{Less};
ghost use Rattle.node_base.specs.Path.{Name, Path, path_cmp, paths_total, is_front, same_path, rest_after};
ghost use Rattle.node_base.specs.Limits.{fits, weight};
ghost use Rattle.node_base.specs.Names.{is_name};
ghost use Rattle.node_base.specs.PathText.{Spells, IsSmall, is_path, path_text, slashed, Answers, path_read, child_of, pieces};
ghost use Rattle.node_base.specs.PathText.{is_long_name, is_past_limits};
ghost use Rattle.std.specs.Fmt.{DisplaysOnOk};
ghost use Rattle.std.specs.List.{list_any};

use crate::limits::{NAME_BYTES, PATH_BYTES, PATH_NAMES};
use crate::pieces::Pieces;
use crate::{NodeName, PathFault};
use std::alloc::{AllocError, Global};
use std::cmp::Ordering;
use std::fmt;
use std::marker::Model;
use std::sync::Arc;

/// A path, name by name. The empty path is the root. Its owners share the names.
#[derive(Drop)]
pub struct NodePath {
    names: Option<Arc<Vec<NodeName>>>,
}

impl Model for NodePath {
    ghost use Rattle.std.specs.Prelude.{◌≡◌, true, [], Vec};
    ghost use Rattle.std.specs.Option.{option_map_or};
    ghost use Rattle.std.specs.Arc.{arc_value};
    ghost use Rattle.std.specs.declared.alloc.Global.{Global};
    ghost use Rattle.node_base.specs.Path.{Name, Path, coded_path};
    ghost use Rattle.node_base.specs.PathText.{is_path};

    ghost Value = { Path };

    ghost coded = { coded_path };

    ghost view = { λ a. option_map_or (λ v. (arc_value {X = Vec Name Global} v).items) a.names [] };

    ghost invariant = { λ a. is_path (option_map_or (λ v. (arc_value {X = Vec Name Global} v).items) a.names [])
        ≡ true };
}

impl NodePath {
    /// The path that the bytes spell: its names with a `/` between each two, and the root where there are none.
    /// Refused: more than 1,024 bytes, 64 names or 255 bytes of a name (`TooLong`), then bytes that spell no path
    /// (`BadPath`).
    pub fn parse(alloc: Global, bytes: &[u8]) -> Result<NodePath, PathFault>
        ensures read { Answers (path_read bytes.now) result }
        // what is taken is spelled by the bytes, and each path within the limits that they spell is taken
        ensures spelled { IfOk result (λ p. Spells p bytes.now) }
        ensures taken { (p : Path) → Spells p bytes.now → IsSmall p → Answers (Ok p) result }
        // past the limits, and else outside the rule
        ensures long { is_past_limits bytes.now ≡ true → Answers (Err PathFault.TooLong) result }
        ensures bad { IfErr result (λ e. e ≡ PathFault.BadPath → (p : Path) → ¬ (Spells p bytes.now)) }
    {
        read_path(alloc, bytes)
    }

    /// Its names, from the root down.
    #[tactic(auto, using(crate::proofs::ReadBack::fits_of_path, crate::proofs::ReadBack::read_of_path))]
    pub fn names(&self) -> &[NodeName]
        ensures names { result.now ≡ self.now }
        ensures small { fits self.now ≡ true }
        // its text is read as the path
        ensures read { path_read (path_text self.now) ≡ Ok self.now }
    {
        self.listed()
    }

    // Its names, which are a path.
    fn listed(&self) -> &[NodeName]
        ensures names { result.now ≡ self.now }
        ensures path { is_path self.now ≡ true }
    {
        match &self.names {
            Some(names) => names.as_slice(),
            None => &[],
        }
    }

    /// Whether it is the empty path.
    #[tactic(auto, using(crate::proofs::PathLemmas::is_root))]
    pub fn is_root(&self) -> bool
        ensures { result ≡ same_path self.now [] }
    {
        self.listed().is_empty()
    }

    /// What is above its last name, and that name; nothing for the root.
    pub fn split_last(&self) -> Option<(&[NodeName], &NodeName)>
        ensures { MatchOption result (self.now ≡ []) (λ s. self.now ≡ s.0.now ++ s.1.now ∷ []) }
    {
        let (last, above) = self.listed().split_last()?;
        Some((above, last))
    }

    /// How many bytes its text has, 1,024 at most.
    #[tactic(auto, using(crate::proofs::ReadBack::length_of_text, // and what the limits say of it
    crate::proofs::ReadBack::weight_of_fits, crate::proofs::ReadBack::count_of_fits))]
    pub fn text_len(&self) -> usize
        ensures len { result ≡ length (path_text self.now) }
        ensures small { result ≤ PATH_BYTES }
    {
        weight(self.names()).saturating_sub(1)
    }

    /// The order of paths: name by name, names by their bytes.
    pub fn compare(&self, other: &NodePath) -> Ordering
        ensures { result ≡ path_cmp self.now other.now }
    {
        compare_paths(self.names(), other.names())
    }

    /// The empty path.
    #[tactic(auto, unfolding(crate::specs::PathText::is_path))]
    pub fn root(alloc: Global) -> NodePath
        ensures { result ≡ [] }
    {
        let _ = alloc;
        NodePath { names: None }
    }

    /// The path of a name right below it. Refused: a path past 64 names or 1,024 bytes (`TooLong`).
    #[tactic(auto, unfolding(crate::specs::PathText::child_of))]
    pub fn child(&self, alloc: Global, name: &NodeName) -> Result<NodePath, PathFault>
        ensures { Answers (child_of self.now name.now) result }
    {
        if !self.has_room_for(name) {
            return Err(PathFault::TooLong);
        }
        let mut names = copied(alloc, self.listed())?;
        names.push(name.copy(alloc)?)?;
        Ok(path_of(alloc, names)?)
    }

    /// Whether the path of a name right below it is within 64 names and 1,024 bytes.
    #[tactic(auto, using(crate::proofs::ReadBack::fits_child))]
    fn has_room_for(&self, name: &NodeName) -> bool
        ensures room { result ≡ fits (self.now ++ name.now ∷ []) }
        ensures name { is_name name.now ≡ true }
        ensures small { length name.now ≤ NAME_BYTES }
    {
        let above = self.names();
        let len = name.as_str().len();
        above.len() < PATH_NAMES && weight(above) + len < PATH_BYTES + 1
    }

    /// The same path once more, with no copy of the names.
    pub fn copy(&self, alloc: Global) -> Result<NodePath, AllocError>
        ensures { IfOk result (λ p. p ≡ self.now) }
    {
        let _ = alloc;
        match &self.names {
            Some(names) => Ok(NodePath {
                names: Some(Arc::try_clone(names)?),
            }),
            None => Ok(NodePath { names: None }),
        }
    }
}

// The path of these names.
fn path_of(alloc: Global, names: Vec<NodeName>) -> Result<NodePath, AllocError>
    requires { is_path names.items ≡ true }
    ensures { IfOk result (λ p. p ≡ names.items) }
{
    let names = Arc::new(alloc, names)?;
    Ok(NodePath { names: Some(names) })
}

// The names once more, with room for another.
fn copied(alloc: Global, names: &[NodeName]) -> Result<Vec<NodeName>, AllocError>
    ensures { IfOk result (λ v. v.items ≡ names.now) }
{
    let mut all = Vec::with_capacity(alloc, names.len() + 1)?;
    for name in names {
        all.push(name.copy(alloc)?)?;
    }
    Ok(all)
}

impl PartialEq for NodePath {
    ghost eq = { same_path };

    ghost laws = { partial_equiv_from_equiv (eq_by_cmp_equiv paths_total) };

    fn eq(&self, other: &NodePath) -> bool {
        self.compare(other).is_eq()
    }
}

impl Eq for NodePath {
    ghost laws = { eq_by_cmp_equiv paths_total };
}

impl PartialOrd for NodePath {
    ghost partial_cmp = { λ p q. Some (path_cmp p q) };

    ghost laws = { partial_order_from_total paths_total };

    fn partial_cmp(&self, other: &NodePath) -> Option<Ordering> {
        Some(self.compare(other))
    }
}

/// The order of paths: name by name, names by their bytes.
impl Ord for NodePath {
    ghost cmp = { path_cmp };

    ghost total = { paths_total };

    ghost matches_partial_cmp = { λ p q. refl };

    ghost matches_eq = { Prim.search (comparing, rules) };

    fn cmp(&self, other: &NodePath) -> Ordering {
        self.compare(other)
    }
}

impl fmt::Display for NodePath {
    ghost output = { λ p. Some (path_text p) };

    /// Its names with a `/` between each two, and nothing for the root.
    fn fmt<W: fmt::Write>(&self, f: &mut fmt::Formatter<W>) -> fmt::Result {
        let Some((first, others)) = self.listed().split_first() else {
            return Ok(());
        };
        f.write_str(first.as_str())?;
        write_slashed(others, f)
    }
}

/// Writes each name behind a slash.
fn write_slashed<W: fmt::Write>(names: &[NodeName], f: &mut fmt::Formatter<W>) -> fmt::Result
    ensures { DisplaysOnOk W.write_str_gives f.old result (Some (slashed names.now)) f.new }
{
    for name in names {
        f.write_str("/")?;
        f.write_str(name.as_str())?;
    }
    Ok(())
}

/// The path that the bytes spell.
#[tactic(auto, unfolding(crate::specs::PathText::path_read))]
fn read_path(alloc: Global, bytes: &[u8]) -> Result<NodePath, PathFault>
    ensures { Answers (path_read bytes.now) result }
{
    if is_past_limits(bytes) {
        return Err(PathFault::TooLong);
    }
    let mut names = Vec::with_capacity(alloc, room_for(bytes))?;
    for piece in Pieces::of(bytes) {
        names.push(NodeName::parse(alloc, piece)?)?;
    }
    Ok(path_of(alloc, names)?)
}

/// How many names a path of these bytes has, as a path of some has one more than slashes.
fn room_for(bytes: &[u8]) -> usize {
    if bytes.is_empty() {
        return 0;
    }
    bytes
        .iter()
        .filter(|byte| **byte == b'/')
        .count()
        .saturating_add(1)
}

/// Whether bytes have more than 1,024 bytes, 64 names or 255 bytes of a name.
#[tactic(auto, unfolding(crate::specs::PathText::is_past_limits))]
fn is_past_limits(bytes: &[u8]) -> bool
    ensures { result ≡ is_past_limits bytes.now }
{
    bytes.len() > PATH_BYTES || has_many_names(bytes) || has_long_name(bytes)
}

/// Whether there are more than 64 names.
fn has_many_names(bytes: &[u8]) -> bool
    requires { length bytes.now ≤ PATH_BYTES }
    ensures { result ≡ nat_lt PATH_NAMES (length (pieces bytes.now)) }
{
    // (so few bytes have no more names: they needn't be counted)
    bytes.len() >= PATH_NAMES && Pieces::of(bytes).count() > PATH_NAMES
}

/// Whether a name has more than 255 bytes.
fn has_long_name(bytes: &[u8]) -> bool
    ensures { result ≡ list_any is_long_name (pieces bytes.now) }
{
    // (so few bytes have no name of more)
    if bytes.len() <= NAME_BYTES {
        return false;
    }
    for piece in Pieces::of(bytes) {
        if piece.len() > NAME_BYTES {
            return true;
        }
    }
    false
}

/// The bytes of the names, and one more for each.
fn weight(names: &[NodeName]) -> usize
    requires { length names.now ≤ PATH_NAMES }
    ensures weight { result ≡ weight names.now }
    ensures small { result ≤ 16384 }
{
    let mut sum = 0;
    for name in names {
        sum += name.len() + 1;
    }
    sum
}

/// The order of paths: name by name, names by their bytes.
pub fn compare_paths(left: &[NodeName], right: &[NodeName]) -> Ordering
    ensures { result ≡ path_cmp left.now right.now }
{
    let Some((first, left)) = left.split_first() else {
        return if right.is_empty() {
            Ordering::Equal
        } else {
            Ordering::Less
        };
    };
    let Some((second, right)) = right.split_first() else {
        return Ordering::Greater;
    };
    match first.compare(second) {
        Ordering::Equal => compare_paths(left, right),
        order => order,
    }
}

/// The laws of the order of paths. It is total, a path stands before what is below it, and what is below a path stands
/// with it: before every later path. So `a`, `a/x`, `a-b` is in order.
#[tactic(auto, using(crate::specs::Path::paths_total, crate::specs::Path::paths_exact, // the order's own laws
crate::proofs::PathLemmas::before_below, crate::proofs::PathLemmas::below_stays_before))]
pub fn path_order()
    ensures total { IsTotalOrder path_cmp }
    ensures exact { IsAntisymmetric path_cmp }
    ensures below { (p q : Path) (n : Name) → path_cmp p (p ++ n ∷ q) ≡ Less }
    ensures together { (p q r : Path) → path_cmp p q ≡ Less → is_front p q ≡ false → path_cmp (p ++ r) q ≡ Less }
    ensures example { path_cmp (codes "a" ∷ codes "x" ∷ []) (codes "a-b" ∷ []) ≡ Less }
{}

/// What follows a front in a path.
pub fn rest_after<'a>(front: &[NodeName], path: &'a [NodeName]) -> Option<&'a [NodeName]>
    ensures { MatchOption result (rest_after front.now path.now ≡ None) (λ r.
        rest_after front.now path.now ≡ Some r.now) }
{
    let Some((n, front)) = front.split_first() else {
        return Some(path);
    };
    let Some((m, path)) = path.split_first() else {
        return None;
    };
    if n.compare(m) == Ordering::Equal {
        return rest_after(front, path);
    }
    None
}

//! Names of files and directories.
ghost use Rattle.std.specs.Prelude.{◌≡◌, ◌≤◌, length, IfOk, true, false, Some, Ok, MatchOption};
ghost use Rattle.std.specs.Cmp.{eq_by_cmp_equiv, partial_equiv_from_equiv, partial_order_from_total};
ghost use Rattle.std.specs.Cmp.Rules.{comparing};
ghost use Rattle.std.proofs.Common.{rules, refl};
ghost use Rattle.node_base.specs.Path.{name_cmp, names_total, same_name};
ghost use Rattle.std.specs.Str.{is_utf8};
ghost use Rattle.std.specs.List.{list_all};
ghost use Rattle.node_base.specs.Names.{IsName, is_name_byte, is_dots, is_name};
ghost use Rattle.node_base.specs.PathText.{Answers, name_read};

use crate::PathFault;
use crate::limits::NAME_BYTES;
use crate::name_text::NameText;
use std::alloc::{AllocError, Global};
use std::cmp::Ordering;
use std::fmt;
use std::marker::Model;

/// A name of a file or a directory, seen by contracts as its bytes: UTF-8 of 1 to 255 bytes, not `.` or `..`, without
/// `/`, control bytes (0x00 to 0x1F) and 0x7F.
#[derive(Drop)]
pub struct NodeName {
    text: NameText,
}

impl Model for NodeName {
    ghost use Rattle.node_base.specs.NameTexts.{name_bytes};
    ghost use Rattle.node_base.specs.Path.{Name, coded_name};
    ghost use Rattle.node_base.specs.declared.limits.TheConstants.{NAME_BYTES};

    ghost Value = { Name };

    ghost coded = { coded_name };

    ghost view = { λ a. name_bytes a.text };

    ghost use Rattle.std.specs.Prelude.{◌≡◌, ◌≤◌, length, true};
    ghost use Rattle.node_base.specs.Names.{is_name};

    ghost invariant = { λ a. (length (name_bytes a.text) ≤ NAME_BYTES) × (is_name (name_bytes a.text) ≡ true) };
}

impl NodeName {
    /// The name that the bytes are. Refused: more than 255 bytes (`TooLong`), then bytes that are no name (`BadPath`).
    #[tactic(auto, using(crate::proofs::ReadBack::name_of_test, // how a name is read, both ways
    crate::proofs::ReadBack::test_of_name), unfolding(crate::specs::PathText::name_read))]
    pub fn parse(alloc: Global, bytes: &[u8]) -> Result<NodeName, PathFault>
        ensures read { Answers (name_read bytes.now) result }
        ensures name { IfOk result (λ n. IsName n) }
        ensures taken { IsName bytes.now → length bytes.now ≤ NAME_BYTES → Answers (Ok bytes.now) result }
    {
        if bytes.len() > NAME_BYTES {
            return Err(PathFault::TooLong);
        }
        let Some(text) = name_text(bytes) else {
            return Err(PathFault::BadPath);
        };
        Ok(NodeName {
            text: NameText::of(alloc, text)?,
        })
    }

    /// Its text.
    pub fn as_str(&self) -> &str
        ensures text { result.now ≡ self.now }
        ensures name { is_name self.now ≡ true }
        ensures small { length self.now ≤ NAME_BYTES }
    {
        self.text.as_str()
    }

    /// How many bytes it has, 255 at most.
    pub fn len(&self) -> usize
        ensures len { result ≡ length self.now }
        ensures small { result ≤ NAME_BYTES }
    {
        self.text.len()
    }

    /// The same name once more.
    pub fn copy(&self, alloc: Global) -> Result<NodeName, AllocError>
        ensures { IfOk result (λ n. n ≡ self.now) }
    {
        Ok(NodeName {
            text: self.text.copy(alloc)?,
        })
    }

    /// The order of the bytes.
    pub fn compare(&self, other: &NodeName) -> Ordering
        ensures { result ≡ name_cmp self.now other.now }
    {
        self.as_str().as_bytes().cmp(&other.as_str().as_bytes())
    }
}

impl PartialEq for NodeName {
    ghost eq = { same_name };

    ghost laws = { partial_equiv_from_equiv (eq_by_cmp_equiv names_total) };

    fn eq(&self, other: &NodeName) -> bool {
        self.compare(other).is_eq()
    }
}

impl Eq for NodeName {
    ghost laws = { eq_by_cmp_equiv names_total };
}

impl PartialOrd for NodeName {
    ghost partial_cmp = { λ n m. Some (name_cmp n m) };

    ghost laws = { partial_order_from_total names_total };

    fn partial_cmp(&self, other: &NodeName) -> Option<Ordering> {
        Some(self.compare(other))
    }
}

/// The order of the bytes.
impl Ord for NodeName {
    ghost cmp = { name_cmp };

    ghost total = { names_total };

    ghost matches_partial_cmp = { λ n m. refl };

    ghost matches_eq = { Prim.search (comparing, rules) };

    fn cmp(&self, other: &NodeName) -> Ordering {
        self.compare(other)
    }
}

impl fmt::Display for NodeName {
    ghost output = { λ n. Some n };

    fn fmt<W: fmt::Write>(&self, f: &mut fmt::Formatter<W>) -> fmt::Result {
        f.write_str(self.text.as_str())
    }
}

/// Whether a byte may stand in a name.
fn is_name_byte(byte: u8) -> bool
    ensures { result ≡ is_name_byte byte }
{
    byte >= 0x20 && byte != b'/' && byte != 0x7F
}

/// Whether the bytes are `.` or `..`.
fn is_dots(bytes: &[u8]) -> bool
    ensures { result ≡ is_dots bytes.now }
{
    match bytes {
        [only] => *only == b'.',
        [first, second] => *first == b'.' && *second == b'.',
        _ => false,
    }
}

/// Whether each byte may stand in a name.
fn has_name_bytes(bytes: &[u8]) -> bool
    ensures { result ≡ list_all is_name_byte bytes.now }
{
    bytes.iter().all(|byte| is_name_byte(*byte))
}

/// The bytes as a text, where they are UTF-8.
fn utf8_text(bytes: &[u8]) -> Option<&str>
    ensures { MatchOption result (is_utf8 bytes.now ≡ false) (λ s. (s.now ≡ bytes.now) × (is_utf8 bytes.now ≡ true)) }
{
    match str::from_utf8(bytes) {
        Ok(text) => Some(text),
        Err(_) => None,
    }
}

/// The bytes as a text, where they are a name.
#[tactic(auto, unfolding(crate::specs::Names::is_name))]
fn name_text(bytes: &[u8]) -> Option<&str>
    ensures { MatchOption result (is_name bytes.now ≡ false) (λ s. (s.now ≡ bytes.now) × (is_name bytes.now ≡ true)) }
{
    if bytes.is_empty() || is_dots(bytes) || !has_name_bytes(bytes) {
        return None;
    }
    utf8_text(bytes)
}

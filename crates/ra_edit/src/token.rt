//! Tokens of what is opened.

ghost use Rattle.std.specs.Prelude.{◌≡◌, ◌≤◌, length, slice_index};
ghost use Rattle.std.specs.Prelude.{if◌then◌else◌};
ghost use Rattle.ra_edit.specs.Tokens.{newest, GivesNext};

use node_base::NodePath;
use std::snapshot::Snapshot;

/// How many names a path has at most, and one more.
const DEPTHS: usize = 65;

/// Where something is open: its path, of which the number of names alone is kept at run time.
#[derive(Drop)]
pub struct Place {
    depth: usize,
    path: Snapshot<NodePath>,
    ghost deep: { depth ≡ length path.value },
    ghost small: { depth ≤ 64 },
}

impl Place {
    /// The place of a path.
    pub fn of(path: &NodePath) -> Place
        ensures { result.path.value ≡ path.now }
    {
        Place {
            depth: path.names().len(),
            path: Snapshot::of(path),
        }
    }
}

/// The numbers of tokens: that of the next one, and for each number of names that of the newest thing opened at a
/// path of so many. What is open has more names than what is around it, so this is the token of each thing that is
/// open.
#[derive(Drop)]
pub struct Tokens {
    next: u64,
    newest: [u64; DEPTHS],
}

impl Tokens {
    /// None is given out.
    pub fn new() -> Tokens
        ensures { result.next ≡ 0 }
    {
        Tokens {
            next: 0,
            newest: [0; DEPTHS],
        }
    }

    /// The number of what is open at a place.
    pub fn at(&self, place: &Place) -> u64
        ensures { result ≡ newest self.now (length place.now.path.value) }
    {
        self.newest[place.depth]
    }

    /// Gives out the next number, for what is opened at a place. Nothing where there is none left.
    pub fn give(&mut self, place: &Place) -> Option<u64>
        ensures { GivesNext self.old self.new (length place.now.path.value) result }
    {
        let number = self.next;
        self.next = number.checked_add(1)?;
        self.newest[place.depth] = number;
        Some(number)
    }
}

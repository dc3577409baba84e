//! Revisions from one to another.
ghost use Rattle.std.specs.Prelude.{◌≡◌, ◌≤◌, ◌↔◌, IfSome, IsSome};
ghost use Rattle.store_engines.specs.Ranges.{first_in, last_in};

use node_base::RevNo;

/// The revisions from one number to another, both of them included.
#[derive(Clone, Copy, PartialEq, Eq)]
pub struct RevRange {
    first: RevNo,
    last: RevNo,
}

impl RevRange {
    /// The revisions from `first` to `last`; None where the first is above the last.
    pub fn new(first: RevNo, last: RevNo) -> Option<RevRange>
        ensures some { IsSome result ↔ (first ≤ last) }
        ensures first { IfSome result (λ r. first_in r ≡ first) }
        ensures last { IfSome result (λ r. last_in r ≡ last) }
    {
        if first > last {
            return None;
        }
        Some(RevRange { first, last })
    }

    /// The first of them.
    pub fn first(&self) -> RevNo
        ensures { result ≡ first_in self.now }
    {
        self.first
    }

    /// The last of them.
    pub fn last(&self) -> RevNo
        ensures { result ≡ last_in self.now }
    {
        self.last
    }
}

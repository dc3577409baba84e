//! What a conditional change of a property wants to find.
ghost use Rattle.std.specs.Prelude.{◌≡◌};
ghost use Rattle.std.specs.Option.{option_copied};
ghost use Rattle.node_base.specs.Path.{same_name};
ghost use Rattle.repo_core.specs.Refusals.{expects};

use std::cmp::Ordering;

/// The value that a change of a property expects to replace.
#[derive(Drop)]
pub enum Expected {
    /// Any value, or none.
    DontCare,
    /// No value.
    Absent,
    /// This value.
    Value(Vec<u8>),
}

impl Expected {
    /// Whether the value that is found, if one is there, is the one that is expected.
    pub fn admits(&self, found: Option<&[u8]>) -> bool
        ensures { result ≡ expects self.now (option_copied found.entry) }
    {
        match self {
            Expected::DontCare => true,
            Expected::Absent => found.is_none(),
            Expected::Value(value) => match found {
                Some(found) => is_same(value.as_slice(), found),
                None => false,
            },
        }
    }
}

// Whether two lists of bytes are the same.
fn is_same(a: &[u8], b: &[u8]) -> bool
    ensures { result ≡ same_name a.now b.now }
{
    a.cmp(&b) == Ordering::Equal
}

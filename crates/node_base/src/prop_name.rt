//! Names of properties.
ghost use Rattle.std.specs.Prelude.{◌≡◌, ◌≤◌, length, true, IfOk, IfErr, Ok, Err, Some, nat_eq, refl};
ghost use Rattle.std.specs.Ordering.{nat_cmp};
ghost use Rattle.std.specs.Cmp.{partial_equiv_from_equiv};
ghost use Rattle.std.specs.Cmp.Lexicographic.{pointwise, nat_list_eq_equiv, texts_ties, texts_po};
ghost use Rattle.node_base.specs.Path.{name_cmp, names_total};
ghost use Rattle.node_base.specs.Numbers.{all_bytes};
ghost use Rattle.node_base.specs.Props.{is_prop_byte, is_prop_name, prop_name_read, IsFault};

use crate::PropFault;
use crate::limits::PROP_NAME_BYTES;
use std::alloc::{AllocError, Global};
use std::cmp::Ordering;
use std::marker::Model;

/// A property's name, seen by contracts as its bytes: UTF-8 without ASCII control characters, 1 to 255 bytes.
/// It may hold `/`, and may be `.` or `..`.
#[derive(Drop)]
pub struct PropName {
    text: String,
}

impl Model for PropName {
    ghost use Rattle.std.specs.Prelude.{◌≡◌, ◌≤◌, length, true, string_bytes};
    ghost use Rattle.node_base.specs.Path.{Name, coded_name};
    ghost use Rattle.node_base.specs.declared.limits.TheConstants.{PROP_NAME_BYTES};

    ghost Value = { Name };

    ghost coded = { coded_name };

    ghost view = { λ a. string_bytes a.text };

    ghost use Rattle.node_base.specs.Props.{is_prop_name};

    ghost invariant = { λ a. (length (string_bytes a.text) ≤ PROP_NAME_BYTES) × (is_prop_name (string_bytes a.text) ≡ true) };
}

/// Whether no byte is a control character of ASCII.
fn are_prop_bytes(bytes: &[u8]) -> bool
    ensures { result ≡ all_bytes is_prop_byte bytes.now }
{
    for b in bytes {
        if *b < 32 || *b == 127 {
            return false;
        }
    }
    true
}

impl PropName {
    /// The name of these bytes. TooLong past 255 bytes; else BadProps for no bytes, for bytes that aren't UTF-8, and
    /// for one below 0x20 or 0x7F.
    pub fn parse(alloc: Global, bytes: &[u8]) -> Result<PropName, PropFault>
        ensures name { IfOk result (λ n. prop_name_read bytes.now ≡ Ok n) }
        ensures fault { IfErr result (λ e. IsFault e (prop_name_read bytes.now)) }
    {
        PropName::from_bytes(Vec::from_slice(alloc, bytes)?)
    }

    /// The name of these bytes, which aren't copied. The errors are those of `parse`, but for memory.
    pub fn from_bytes(bytes: Vec<u8>) -> Result<PropName, PropFault>
        ensures name { IfOk result (λ n. prop_name_read bytes.items ≡ Ok n) }
        ensures fault { IfErr result (λ e. prop_name_read bytes.items ≡ Err e) }
    {
        if bytes.len() > PROP_NAME_BYTES {
            return Err(PropFault::TooLong);
        }
        if bytes.len() == 0 || !are_prop_bytes(bytes.as_slice()) {
            return Err(PropFault::BadProps);
        }
        match String::from_utf8(bytes) {
            Ok(text) => {
                let _utf8 = text.as_str();
                Ok(PropName { text })
            }
            Err(_) => Err(PropFault::BadProps),
        }
    }

    /// Its text.
    pub fn as_str(&self) -> &str
        ensures { result.now ≡ self.now }
    {
        self.text.as_str()
    }

    /// Its bytes.
    pub fn as_bytes(&self) -> &[u8]
        ensures { result.now ≡ self.now }
    {
        self.text.as_str().as_bytes()
    }

    /// How many bytes it has, 1 to 255.
    pub fn len(&self) -> usize
        ensures len { result ≡ length self.now }
        ensures small { result ≤ PROP_NAME_BYTES }
        ensures rule { is_prop_name self.now ≡ true }
    {
        self.text.len()
    }

    /// The same name once more.
    pub fn copy(&self, alloc: Global) -> Result<PropName, AllocError>
        ensures { IfOk result (λ n. n ≡ self.now) }
    {
        Ok(PropName {
            text: String::from_str(alloc, self.text.as_str())?,
        })
    }

    /// The order of the bytes.
    pub fn compare(&self, other: &PropName) -> Ordering
        ensures { result ≡ name_cmp self.now other.now }
    {
        self.as_bytes().cmp(&other.as_bytes())
    }
}

impl PartialEq for PropName {
    ghost eq = { λ a b. pointwise nat_eq a b };

    ghost laws = { partial_equiv_from_equiv nat_list_eq_equiv };

    fn eq(&self, other: &PropName) -> bool {
        self.as_bytes() == other.as_bytes()
    }
}

impl Eq for PropName {
    ghost laws = { nat_list_eq_equiv };
}

impl PartialOrd for PropName {
    ghost partial_cmp = { λ a b. Some (name_cmp a b) };

    ghost laws = { texts_po };

    fn partial_cmp(&self, other: &PropName) -> Option<Ordering> {
        Some(self.compare(other))
    }
}

impl Ord for PropName {
    ghost cmp = { name_cmp };

    ghost total = { names_total };

    ghost matches_partial_cmp = { λ a b. refl };

    ghost matches_eq = { texts_ties };

    fn cmp(&self, other: &PropName) -> Ordering {
        self.compare(other)
    }
}

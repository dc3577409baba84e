//! Values of properties.
ghost use Rattle.std.specs.Prelude.{◌≡◌, ◌≤◌, ◌<◌, [], length, IfOk, OnOk, IfErr, Ok, Err};
ghost use Rattle.node_base.specs.declared.prop_fault.PropFault.TheVariants.{TooLong};

use crate::PropFault;
use crate::limits::PROP_VALUE_BYTES;
use std::alloc::{AllocError, Global};
use std::marker::Model;

/// A property's value, at most 65,536 bytes, seen by contracts as its bytes.
#[derive(Debug, Drop)]
pub struct PropValue {
    bytes: Vec<u8>,
}

impl Model for PropValue {
    ghost use Rattle.std.specs.Prelude.{List, ℕ, ◌≤◌, length};
    ghost use Rattle.std.specs.Coded.{coded_list, coded_ℕ};
    ghost use Rattle.node_base.specs.declared.limits.TheConstants.{PROP_VALUE_BYTES};

    ghost Value = { List ℕ };

    ghost coded = { coded_list coded_ℕ };

    ghost view = { λ a. a.bytes.items };

    ghost invariant = { λ a. length a.bytes.items ≤ PROP_VALUE_BYTES };
}

impl PropValue {
    /// The value of these bytes. TooLong past 65,536 bytes.
    pub fn new(bytes: Vec<u8>) -> Result<PropValue, PropFault>
        ensures value { IfOk result (λ v. v ≡ bytes.items) }
        ensures small { OnOk result (length bytes.items ≤ PROP_VALUE_BYTES) }
        ensures fault { IfErr result (λ e. (e ≡ TooLong) × (PROP_VALUE_BYTES < length bytes.items)) }
    {
        if bytes.len() > PROP_VALUE_BYTES {
            return Err(PropFault::TooLong);
        }
        Ok(PropValue { bytes })
    }

    /// The value without bytes.
    pub fn empty(alloc: Global) -> PropValue
        ensures { result ≡ [] }
    {
        PropValue {
            bytes: Vec::new(alloc),
        }
    }

    /// Its bytes.
    pub fn as_slice(&self) -> &[u8]
        ensures { result.now ≡ self.now }
    {
        self.bytes.as_slice()
    }

    /// How many bytes it has.
    pub fn len(&self) -> usize
        ensures len { result ≡ length self.now }
        ensures small { result ≤ PROP_VALUE_BYTES }
    {
        self.bytes.len()
    }

    /// The same value once more.
    pub fn copy(&self, alloc: Global) -> Result<PropValue, AllocError>
        ensures { IfOk result (λ v. v ≡ self.now) }
    {
        Ok(PropValue {
            bytes: Vec::from_slice(alloc, self.bytes.as_slice())?,
        })
    }
}

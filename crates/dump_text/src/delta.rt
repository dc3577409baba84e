//! Bytes of a delta.

ghost use Rattle.std.specs.Prelude.{◌≡◌};

use std::marker::Model;

/// The bytes of a delta, as they stand in a dump, seen by contracts as these bytes. What they say isn't looked at.
#[derive(Drop)]
pub struct DeltaBytes {
    bytes: Vec<u8>,
}

impl Model for DeltaBytes {
    ghost use Rattle.std.specs.Prelude.{List, ℕ};
    ghost use Rattle.std.specs.Coded.{coded_list, coded_ℕ};

    ghost Value = { List ℕ };

    ghost coded = { coded_list coded_ℕ };

    ghost view = { λ a. a.bytes.items };
}

impl DeltaBytes {
    /// A delta of these bytes.
    pub fn new(bytes: Vec<u8>) -> DeltaBytes
        ensures { result ≡ bytes.items }
    {
        DeltaBytes { bytes }
    }

    /// The bytes.
    pub fn as_slice(&self) -> &[u8]
        ensures { result.now ≡ self.now }
    {
        self.bytes.as_slice()
    }
}

//! Ledgers without a name.
ghost use Rattle.std.specs.Prelude.{◌≡◌};

use std::sync::ledger::Blank;

/// The ledgers of a mirror that has no name yet, of one part each.
#[derive(Drop)]
pub(crate) struct Blanks {
    pub(crate) merged: Blank,
    pub(crate) copying: Blank,
    pub(crate) head: Blank,
    pub(crate) holder: Blank,
    ghost merged_whole: { merged.parts ≡ 1 },
    ghost copying_whole: { copying.parts ≡ 1 },
    ghost head_whole: { head.parts ≡ 1 },
    ghost holder_whole: { holder.parts ≡ 1 },
}

impl Blanks {
    /// Four ledgers.
    pub(crate) fn new() -> Blanks {
        Blanks {
            merged: Blank::new(1),
            copying: Blank::new(1),
            head: Blank::new(1),
            holder: Blank::new(1),
        }
    }
}

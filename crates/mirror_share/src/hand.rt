//! The whole share of each ledger.
ghost use Rattle.std.specs.Prelude.{◌≡◌};

use crate::name::{CopyingLedger, HeadLedger, HolderLedger, MergedLedger, MirrorName};
use std::sync::ledger::Share;

/// The whole share of each ledger: who has it knows what is counted, and nobody else has it.
#[derive(Drop)]
pub(crate) struct Hand<L: MirrorName> {
    pub(crate) merged: Share<MergedLedger<L>>,
    pub(crate) copying: Share<CopyingLedger<L>>,
    pub(crate) head: Share<HeadLedger<L>>,
    pub(crate) holder: Share<HolderLedger<L>>,
    ghost merged_whole: { merged.parts ≡ 1 },
    ghost copying_whole: { copying.parts ≡ 1 },
    ghost head_whole: { head.parts ≡ 1 },
    ghost holder_whole: { holder.parts ≡ 1 },
}

impl<L: MirrorName> Hand<L> {
    /// There is one hand.
    pub(crate) fn is_apart(&mut self, other: &mut Hand<L>)
        ensures { ⊥ }
    {
        self.holder.give(&mut other.holder, 0, 0);
    }
}

//! The ledgers of a mirror's numbers and of its holder.
ghost use Rattle.std.specs.Prelude.{◌≡◌};
ghost use Rattle.mirror_share.specs.Counts.{count_of, holder_count, CountsAs, IsAudited};

use crate::blanks::Blanks;
use crate::hand::Hand;
use crate::ledger::{put_number, set_head, set_holder, set_number};
use crate::name::{CopyingLedger, HeadLedger, HolderLedger, MergedLedger, MirrorName};
use std::sync::ledger::Book;
use sync_core::{Numbers, Seat};

/// What each ledger counts in all.
#[derive(Drop)]
pub(crate) struct Ledgers<L: MirrorName> {
    pub(crate) merged: Book<MergedLedger<L>>,
    pub(crate) copying: Book<CopyingLedger<L>>,
    pub(crate) head: Book<HeadLedger<L>>,
    pub(crate) holder: Book<HolderLedger<L>>,
}

impl<L: MirrorName> Ledgers<L> {
    ghost use Rattle.mirror_share.specs.Names.{AreNamed};

    /// The ledgers, with what a mirror counts that nobody holds, and the hand.
    pub(crate) fn open(blanks: Blanks, numbers: Numbers) -> (Ledgers<L>, Hand<L>)
        requires { AreNamed blanks L.merged L.copying L.head L.holder }
        ensures merged { result.0.merged.total ≡ count_of numbers.merged }
        ensures copying { result.0.copying.total ≡ count_of numbers.copying }
        ensures head { result.0.head.total ≡ numbers.head }
        ensures holder { result.0.holder.total ≡ 0 }
    {
        let Blanks {
            merged,
            copying,
            head,
            holder,
        } = blanks;
        let (mut merged, mut merged_share) = merged.open::<MergedLedger<L>>();
        let (mut copying, mut copying_share) = copying.open::<CopyingLedger<L>>();
        let (mut head, mut head_share) = head.open::<HeadLedger<L>>();
        let (holder, holder_share) = holder.open::<HolderLedger<L>>();
        put_number(&mut merged, &mut merged_share, numbers.merged);
        put_number(&mut copying, &mut copying_share, numbers.copying);
        head.add(&mut head_share, u64::from(numbers.head.get()));
        (
            Ledgers {
                merged,
                copying,
                head,
                holder,
            },
            Hand {
                merged: merged_share,
                copying: copying_share,
                head: head_share,
                holder: holder_share,
            },
        )
    }

    /// What the hand counts is what is counted.
    pub(crate) fn audit(&mut self, hand: &mut Hand<L>)
        ensures merged { IsAudited self.old.merged.total hand.old.merged.amount self.new.merged.total
            hand.new.merged.amount }
        ensures copying { IsAudited self.old.copying.total hand.old.copying.amount self.new.copying.total
            hand.new.copying.amount }
        ensures head { IsAudited self.old.head.total hand.old.head.amount self.new.head.total hand.new.head.amount }
        ensures holder { IsAudited self.old.holder.total hand.old.holder.amount self.new.holder.total
            hand.new.holder.amount }
    {
        self.merged.audit(&mut hand.merged);
        self.copying.audit(&mut hand.copying);
        self.head.audit(&mut hand.head);
        self.holder.audit(&mut hand.holder);
    }

    /// Counts other numbers.
    pub(crate) fn set_numbers(&mut self, hand: &mut Hand<L>, old: Numbers, new: Numbers)
        requires merged { self.old.merged.total ≡ count_of old.merged }
        requires copying { self.old.copying.total ≡ count_of old.copying }
        requires head { self.old.head.total ≡ old.head }
        ensures merged { CountsAs (count_of new.merged) self.new.merged.total hand.new.merged.amount }
        ensures copying { CountsAs (count_of new.copying) self.new.copying.total hand.new.copying.amount }
        ensures head { CountsAs new.head self.new.head.total hand.new.head.amount }
        ensures holder { (self.new.holder.total ≡ self.old.holder.total)
            × (hand.new.holder.amount ≡ hand.old.holder.amount) }
    {
        set_number(&mut self.merged, &mut hand.merged, old.merged, new.merged);
        set_number(
            &mut self.copying,
            &mut hand.copying,
            old.copying,
            new.copying,
        );
        set_head(&mut self.head, &mut hand.head, old.head, new.head);
    }

    /// Counts another holder.
    pub(crate) fn set_holder(&mut self, hand: &mut Hand<L>, old: Option<Seat>, new: Option<Seat>)
        requires { self.old.holder.total ≡ holder_count old }
        ensures merged { (self.new.merged.total ≡ self.old.merged.total) × (hand.new.merged.amount ≡ hand.old.merged.amount) }
        ensures copying { (self.new.copying.total ≡ self.old.copying.total)
            × (hand.new.copying.amount ≡ hand.old.copying.amount) }
        ensures head { (self.new.head.total ≡ self.old.head.total) × (hand.new.head.amount ≡ hand.old.head.amount) }
        ensures holder { CountsAs (holder_count new) self.new.holder.total hand.new.holder.amount }
    {
        set_holder(&mut self.holder, &mut hand.holder, old, new);
    }
}

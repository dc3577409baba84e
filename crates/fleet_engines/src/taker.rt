//! Who takes the records of a dump.
ghost use Rattle.std.specs.Prelude.{◌≡◌, ℕ, IfErr, OnOk};
ghost use Rattle.node_base.specs.declared.refusal.Refusal.{Refusal as RefusalOf};
ghost use Rattle.dump_text.specs.declared.record.DumpRecord.{DumpRecord as RecordOf};
ghost use Rattle.fleet_engines.specs.Runs.{Counted};
ghost use Rattle.fleet_engines.specs.Takers.{Place, place};

use dump_text::DumpRecord;
use node_base::Refusal;

/// Who takes the records of a dump one after another, and then its end. What he makes of them he keeps in a store and
/// tells an output.
pub trait Taker<S, O> {
    /// From where to where a record leads that is taken.
    ghost takes: { Place Self S O → RecordOf → Place Self S O → Type 0 };

    /// For what a record is refused, and where that leaves him.
    ghost refuses: { Place Self S O → RecordOf → RefusalOf → Place Self S O → Type 0 };

    /// From where to where the end leads.
    ghost ends: { Place Self S O → Place Self S O → Type 0 };

    /// For what the end is refused, and where that leaves him.
    ghost cant_end: { Place Self S O → RefusalOf → Place Self S O → Type 0 };

    /// How often the output failed.
    ghost failures: { O → ℕ };

    /// Takes the next record. PeerFailed (49) where the output failed, and only there.
    fn take(&mut self, next: DumpRecord, store: &mut S, output: &mut O) -> Result<(), Refusal>
        ensures ok { OnOk result (takes (place self.old store.old output.old) next (place self.new store.new output.new)) }
        ensures refused { IfErr result (λ e. refuses (place self.old store.old output.old) next e
            (place self.new store.new output.new)) }
        ensures peer { Counted result (failures output.old) (failures output.new) };

    /// Takes the end. PeerFailed (49) where the output failed, and only there.
    fn end(&mut self, store: &mut S, output: &mut O) -> Result<(), Refusal>
        ensures ok { OnOk result (ends (place self.old store.old output.old) (place self.new store.new output.new)) }
        ensures refused { IfErr result (λ e. cant_end (place self.old store.old output.old) e
            (place self.new store.new output.new)) }
        ensures peer { Counted result (failures output.old) (failures output.new) };
}

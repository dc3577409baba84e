//! Dumps that come in pieces.

ghost use Rattle.std.specs.Prelude.{◌≡◌, ℕ, Bool, List, ◌≤◌, ◌+◌, length, Ok, Err, OnOk, OnErr, true, false, if◌then◌else◌};
ghost use Rattle.dump_text.specs.Streams.{version_of, kept, StreamIs, Reads, fresh, fresh_by, behind_version, spent, reading};
ghost use Rattle.dump_text.specs.Streams.{dump_by, has_failed, is_between, IsFront};
ghost use Rattle.dump_text.specs.Grammar.{DumpBy};
ghost use Rattle.dump_text.specs.declared.record.DumpRecord.{DumpRecord};
ghost use Rattle.dump_text.specs.declared.fault.DumpFault.TheVariants.{Failed, Truncated};

use crate::fault::DumpFault;
use crate::record::DumpRecord;
use crate::state::ReadState;
use std::alloc::Global;
use std::marker::Model;

/// A dump that comes in pieces, as the notes on the dump file format (dump-load-format, versions 2 and 3) describe it. Of
/// version 3 it takes property lists that are given as deltas; and texts that are, where it was made to.
/// Contracts see what has come of it: the records that are whole are handed out, and the rest is kept until the next
/// piece.
#[derive(Drop)]
pub struct DumpReader {
    alloc: Global,
    state: ReadState,
}

impl Model for DumpReader {
    ghost use Rattle.dump_text.specs.declared.state.ReadState.{ReadState};
    ghost use Rattle.std.specs.Coded.{codes};
    ghost use Rattle.node_base.specs.Props.{coded_props};

    ghost Value = { ReadState };

    ghost coded = { Prim.hlevel (codes, coded_props) };

    ghost view = { λ a. a.state };
}

impl DumpReader {
    /// Before the first byte. A text that is given as a delta is refused (TextDelta).
    pub fn new(alloc: Global) -> DumpReader
        ensures { result ≡ fresh }
    {
        DumpReader {
            alloc,
            state: ReadState::new(alloc, false),
        }
    }

    /// Before the first byte, and taking texts that are given as deltas, at nodes of format 3. The bytes of such a text
    /// and the sums beside them are handed out (`DumpRecord::DeltaNode`), and not looked into.
    pub fn taking_deltas(alloc: Global) -> DumpReader
        ensures { result ≡ fresh_by true }
    {
        DumpReader {
            alloc,
            state: ReadState::new(alloc, true),
        }
    }

    /// Behind the version block of format 2, as if its bytes had come (`law::version_is_read`).
    pub fn behind_version(alloc: Global) -> DumpReader
        ensures { result ≡ behind_version }
    {
        DumpReader {
            alloc,
            state: ReadState::behind_version(alloc),
        }
    }

    /// Takes the next piece of a dump, and adds each record that is whole now, in order. The pieces may be of any
    /// sizes.
    ///
    /// A refusal comes in the call that brings the byte that shows it, with the records before that byte in `out`; so
    /// does OutOfMemory, with some of them. After either the reader keeps nothing, and each later call answers Failed.
    pub fn feed(&mut self, piece: &[u8], out: &mut Vec<DumpRecord>) -> Result<(), DumpFault>
        ensures reads { has_failed self.old ≡ false → StreamIs result self.new out.new.items
            (reading (Reads out.old.items self.old) piece.now) }
        ensures failed { has_failed self.old ≡ true → result ≡ Err Failed }
        ensures later { OnErr result (self.new ≡ spent) }
        ensures front { has_failed self.old ≡ false → OnErr result
            (IsFront out.new.items (reading (Reads out.old.items self.old) piece.now)) }
        ensures kept { has_failed self.old ≡ true → out.new.items ≡ out.old.items }
        ensures held { kept self.new ≤ kept self.old + length piece.now }
    {
        self.feed_piece(piece, out)
    }

    // Takes the next piece of a dump.
    fn feed_piece(&mut self, piece: &[u8], out: &mut Vec<DumpRecord>) -> Result<(), DumpFault>
        ensures reads { has_failed self.old ≡ false → StreamIs result self.new out.new.items
            (reading (Reads out.old.items self.old) piece.now) }
        ensures failed { has_failed self.old ≡ true → result ≡ Err Failed }
        ensures later { OnErr result (self.new ≡ spent) }
        ensures front { has_failed self.old ≡ false → OnErr result
            (IsFront out.new.items (reading (Reads out.old.items self.old) piece.now)) }
        ensures kept { has_failed self.old ≡ true → out.new.items ≡ out.old.items }
    {
        if self.state.has_failed() {
            self.state = ReadState::spent(self.alloc);
            return Err(DumpFault::Failed);
        }
        match self.state.take_piece(self.alloc, piece, out) {
            Ok(()) => Ok(()),
            Err(fault) => {
                self.state = ReadState::spent(self.alloc);
                Err(fault)
            }
        }
    }

    /// The end of the input: fine between two records and behind the version block, else Truncated; Failed after a
    /// refusal.
    pub fn finish(self) -> Result<(), DumpFault>
        ensures failed { has_failed self ≡ true → result ≡ Err Failed }
        ensures ended { has_failed self ≡ false → result ≡ (if is_between self then Ok tt else Err Truncated) }
        // what was read is a dump of the grammar
        ensures dump { OnOk result ((deltas : Bool) (bytes : List ℕ) (rs : List DumpRecord)
            → dump_by deltas bytes ≡ Reads rs self → DumpBy deltas bytes rs) }
    {
        if self.state.has_failed() {
            return Err(DumpFault::Failed);
        }
        if self.state.is_between() {
            Ok(())
        } else {
            Err(DumpFault::Truncated)
        }
    }

    /// How many bytes are kept of a record that isn't whole yet: of a line or a text, of its properties so far, and of
    /// its header's paths. They are never more than were fed, whatever lengths were announced. Goes over all properties.
    pub fn held(&self) -> u128
        ensures { result ≡ kept self.now }
    {
        self.state.held()
    }

    /// The format's number that the first line gave, 0 before it has come.
    pub fn version(&self) -> u8
        ensures { result ≡ version_of self.now }
    {
        self.state.version
    }
}

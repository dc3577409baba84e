//! How entries are read.
ghost use Rattle.std.specs.Prelude.{◌≡◌, ◌↔◌, ℕ, List, false, Some, IfOk};
ghost use Rattle.std.specs.Prelude.{IfErr, IfNone, IfSome};
ghost use Rattle.std.specs.Prelude.{OnOk, IsTrue};
ghost use Rattle.node_base.specs.Props.{PropMap};
ghost use Rattle.dump_text.specs.Streams.{dump, reading, Reads, has_failed};
ghost use Rattle.dump_text.specs.Written.{read_revision};
ghost use Rattle.dump_text.specs.declared.record.DumpRecord.{DumpRecord as RecordOf};
ghost use Rattle.dump_text.specs.declared.record.DumpRecord.TheVariants as told;
ghost use Rattle.repo_core.specs.declared.entry.Entry.{Entry as EntryOf};
ghost use Rattle.repo_store.specs.Journal.{IsBeginning, IsNoBeginning, Spells};
ghost use Rattle.repo_store.specs.Readings.{records_of, AreNoBeginning, AreNoRevision, AreReadAs, BeginAs};
ghost use Rattle.repo_store.specs.Readings.{BreaksRevision, CantGoOn, IsBad, IsCanonical, IsDumpOf, IsJoined};
ghost use Rattle.repo_store.specs.Readings.{IsReadable, IsRevisionOf};

use crate::spell;
use byte_streams::VecWriter;
use dump_text::law::dumps_are_read;
use dump_text::{DumpFault, DumpReader, DumpRecord, NodeRecord, RevRecord, write_revision};
use node_base::{Props, RevNo};
use std::alloc::{AllocError, AllocFailed, Global};
use uuid::Uuid;

/// Why bytes aren't read as an entry.
#[derive(Clone, Copy, PartialEq, Eq)]
pub enum ReadFault {
    /// They are none.
    Bad,
    /// A growth was refused.
    OutOfMemory,
}

impl From<AllocError> for ReadFault {
    ghost use Rattle.std.specs.Prelude.{◌≡◌};
    ghost use Rattle.repo_store.specs.declared.read.ReadFault.TheVariants.{OutOfMemory};

    ghost from_gives = { λ _ e. e ≡ OutOfMemory };

    fn from(_: AllocError) -> ReadFault {
        ReadFault::OutOfMemory
    }
}

impl<T: Drop> From<AllocFailed<T>> for ReadFault {
    ghost use Rattle.std.specs.Prelude.{◌≡◌};
    ghost use Rattle.repo_store.specs.declared.read.ReadFault.TheVariants.{OutOfMemory};

    ghost from_gives = { λ _ e. e ≡ OutOfMemory };

    fn from(_: AllocFailed<T>) -> ReadFault {
        ReadFault::OutOfMemory
    }
}

// One piece more.
fn feed(
    reader: &mut DumpReader,
    piece: &[u8],
    records: &mut Vec<DumpRecord>,
) -> Result<(), ReadFault>
    requires { has_failed reader.old ≡ false }
    ensures reads { OnOk result (reading (Reads records.old.items reader.old) piece.now ≡ Reads records.new.items
        reader.new) }
    ensures bad { IsBad result → CantGoOn records.old.items reader.old piece.now }
{
    match reader.feed(piece, records) {
        Ok(()) => Ok(()),
        Err(DumpFault::OutOfMemory) => Err(ReadFault::OutOfMemory),
        Err(_) => Err(ReadFault::Bad),
    }
}

// The records of a dump's bytes.
fn records_in(alloc: Global, bytes: &[u8]) -> Result<Vec<DumpRecord>, ReadFault>
    ensures read { IfOk result (λ rs. IsDumpOf bytes.now rs.items) }
    ensures bad { IsBad result → (rs : List RecordOf) → IsDumpOf bytes.now rs → ⊥ }
{
    let mut reader = DumpReader::new(alloc);
    let mut records = Vec::new(alloc);
    feed(&mut reader, bytes, &mut records)?;
    Ok(records)
}

// The records of bytes behind the version block.
fn records_behind(alloc: Global, bytes: &[u8]) -> Result<Vec<DumpRecord>, ReadFault>
    ensures read { IfOk result (λ rs. AreReadAs bytes.now rs.items) }
    ensures bad { IsBad result → (rs : List RecordOf) → AreReadAs bytes.now rs → ⊥ }
{
    let mut reader = DumpReader::behind_version(alloc);
    let mut records = Vec::new(alloc);
    feed(&mut reader, bytes, &mut records)?;
    Ok(records)
}

// The first record of one revision.
#[tactic(auto, using(crate::proofs::Reading::second_revision))]
fn first(
    alloc: Global,
    revision: Option<RevRecord>,
    number: RevNo,
    props: Props,
) -> Result<RevRecord, ReadFault>
    ensures joined { IfOk result (IsJoined revision (told.Revision number props)) }
    ensures bad { IsBad result → BreaksRevision revision (told.Revision number props) }
    ensures no_other { IfErr result (λ e. e ≡ ReadFault.Bad) }
{
    match revision {
        Some(_) => Err(ReadFault::Bad),
        None => Ok(RevRecord {
            number,
            props,
            nodes: Vec::new(alloc),
        }),
    }
}

// A node more of one revision.
#[tactic(auto, using(crate::proofs::Reading::early_node))]
fn node_more(revision: Option<RevRecord>, node: NodeRecord) -> Result<RevRecord, ReadFault>
    ensures joined { IfOk result (IsJoined revision (told.Node node)) }
    ensures bad { IsBad result → BreaksRevision revision (told.Node node) }
{
    match revision {
        Some(revision) => {
            let mut revision = revision;
            revision.nodes.push(node)?;
            Ok(revision)
        }
        None => Err(ReadFault::Bad),
    }
}

// A record more of one revision.
#[tactic(auto, using(crate::proofs::Reading::an_identity))]
fn join(
    alloc: Global,
    revision: Option<RevRecord>,
    next: DumpRecord,
) -> Result<RevRecord, ReadFault>
    ensures joined { IfOk result (IsJoined revision next) }
    ensures bad { IsBad result → BreaksRevision revision next }
{
    match next {
        DumpRecord::Revision(number, props) => first(alloc, revision, number, props),
        DumpRecord::Node(node) => node_more(revision, node),
        DumpRecord::Identity(_) => Err(ReadFault::Bad),
        DumpRecord::DeltaNode(_, _) => Err(ReadFault::Bad),
    }
}

// The one revision that records say.
#[tactic(auto, using(crate::proofs::Reading::no_record))]
fn revision_of(alloc: Global, records: Vec<DumpRecord>) -> Result<RevRecord, ReadFault>
    ensures read { IfOk result (λ r. records_of r ≡ records.items) }
    ensures bad { IsBad result → AreNoRevision records.items }
{
    let mut revision = None;
    for next in records {
        revision = Some(join(alloc, revision, next)?);
    }
    match revision {
        Some(revision) => Ok(revision),
        None => Err(ReadFault::Bad),
    }
}

// Whether bytes are the canonical spelling of a revision, whose property lists are then whole. It is written to be
// compared, in memory that serves the next entry too.
fn is_canonical(
    revision: &RevRecord,
    bytes: &[u8],
    written: &mut VecWriter,
) -> Result<bool, AllocError>
    ensures holds { IfOk result (λ b. IsTrue b ↔ IsCanonical revision.now bytes.now) }
    ensures readable { IfOk result (λ b. IsTrue b → IsReadable revision.now) }
{
    if !revision.is_whole() {
        return Ok(false);
    }
    written.restart(bytes.len());
    write_revision(written, revision).unwrap();
    let again = written.as_slice()?;
    Ok(again == bytes)
}

// The most bytes of an entry whose memory is kept for the next: 64 KiB.
const KEPT: usize = 65_536;

// Gives back the memory that a long entry took.
fn let_go(alloc: Global, written: &mut VecWriter, bytes: usize) {
    if bytes > KEPT {
        *written = VecWriter::new(alloc);
    }
}

/// The revision that an entry's bytes spell, its nodes in their order. What they are compared with is written to
/// memory of the caller, which serves the next entry too, where it isn't long.
#[tactic(auto, using(crate::proofs::Reading::is_revision))]
pub fn read_revision(
    alloc: Global,
    bytes: &[u8],
    written: &mut VecWriter,
) -> Result<RevRecord, ReadFault>
    ensures read { IfOk result (IsRevisionOf bytes.now) }
    ensures bad { IsBad result → (e : EntryOf) → Spells bytes.now e → ⊥ }
{
    dumps_are_read();
    let records = records_behind(alloc, bytes)?;
    let revision = revision_of(alloc, records)?;
    let canonical = is_canonical(&revision, bytes, written)?;
    let_go(alloc, written, bytes.len());
    if canonical {
        Ok(revision)
    } else {
        Err(ReadFault::Bad)
    }
}

// The identity that a record says.
fn identity_in(said: &DumpRecord) -> Option<Uuid>
    ensures some { IfSome result (λ id. said.now ≡ told.Identity id) }
    ensures none { IfNone result ((id : List ℕ) → said.now ≡ told.Identity id → ⊥) }
{
    match said {
        DumpRecord::Identity(identity) => Some(*identity),
        _ => None,
    }
}

// The properties of revision 0 that a record says.
fn zero_in(said: DumpRecord) -> Option<Props>
    ensures some { IfSome result (λ p. said ≡ told.Revision 0 p) }
    ensures none { IfNone result ((p : PropMap) → said ≡ told.Revision 0 p → ⊥) }
{
    match said {
        DumpRecord::Revision(number, props) => {
            if number == RevNo::ZERO {
                Some(props)
            } else {
                None
            }
        }
        _ => None,
    }
}

// The identity and the properties that two records say.
fn beginning_of(records: Vec<DumpRecord>) -> Option<(Uuid, Props)>
    ensures read { IfSome result (λ p. BeginAs records.items p.0 p.1) }
    ensures bad { IfNone result (AreNoBeginning records.items) }
{
    let mut records = records;
    if records.len() != 2 {
        return None;
    }
    let identity = identity_in(&records[0])?;
    let last = records.pop()?;
    let props = zero_in(last)?;
    Some((identity, props))
}

/// The identity and revision 0's properties that the first entry's bytes spell.
#[tactic(auto, using(crate::proofs::Reading::is_beginning))]
pub fn read_beginning(alloc: Global, bytes: &[u8]) -> Result<(Uuid, Props), ReadFault>
    ensures read { IfOk result (λ p. IsBeginning bytes.now p.0 p.1) }
    ensures bad { IsBad result → IsNoBeginning bytes.now }
{
    dumps_are_read();
    let records = records_in(alloc, bytes)?;
    let Some((identity, props)) = beginning_of(records) else {
        return Err(ReadFault::Bad);
    };
    let written = spell::beginning(alloc, &identity, &props)?;
    if written.as_slice() == bytes {
        Ok((identity, props))
    } else {
        Err(ReadFault::Bad)
    }
}

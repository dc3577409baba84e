//! How entries are written.
ghost use Rattle.std.specs.Prelude.{◌≡◌, ◌∷◌, ◌++◌, [], IfOk, OnOk, None, true};
ghost use Rattle.dump_text.specs.Canon.{canon_entry, canon_revision};
ghost use Rattle.dump_text.specs.Written.{are_whole, AreRecords};
ghost use Rattle.dump_text.specs.declared.record.DumpRecord.TheVariants as told;
ghost use Rattle.repo_core.specs.declared.entry.Entry.TheVariants.{Revised, Mapped};
ghost use Rattle.repo_store.specs.Journal.{spelling, HasSet, Spells, IsBeginning};
ghost use Rattle.repo_store.specs.Readings.{IsReadable};

use byte_streams::VecWriter;
use dump_load::ChangeSet;
use dump_text::law::dumps_go_on;
use dump_text::{RevRecord, write_head, write_props_entry, write_revision};
use node_base::{Props, RevNo};
use repo_core::Entry;
use std::alloc::{AllocError, Global};
use uuid::Uuid;

// What a head with an identity and the headers of a record have, at most.
const HEAD_BYTES: usize = 256;

// What the lengths of a property have, at most.
const LENGTH_BYTES: usize = 16;

// Room for an entry of these properties.
fn room_of(props: &Props) -> usize {
    let mut room = HEAD_BYTES;
    for (name, value) in props.entries() {
        room = room
            .saturating_add(LENGTH_BYTES)
            .saturating_add(name.len())
            .saturating_add(value.len());
    }
    room
}

/// The first entry: the head with the identity, and revision 0's record.
#[tactic(auto, using(crate::proofs::Spelling::beginning_spelled))]
pub fn beginning(alloc: Global, identity: &Uuid, props: &Props) -> Result<Vec<u8>, AllocError>
    ensures { IfOk result (λ v. IsBeginning v.items identity.now props.now) }
{
    dumps_go_on();
    let mut out = VecWriter::with_room(alloc, room_of(props));
    write_head(&mut out, Some(identity));
    write_props_entry(&mut out, RevNo::ZERO, props);
    out.into_bytes()
}

// The entry of a revision's other properties.
fn map_bytes(alloc: Global, number: RevNo, props: &Props) -> Result<Vec<u8>, AllocError>
    ensures canonical { IfOk result (λ v. v.items ≡ canon_entry number props.now) }
    ensures readable { OnOk result (AreRecords (canon_entry number props.now) (told.Revision number props.now ∷ [])) }
{
    let mut out = VecWriter::with_room(alloc, room_of(props));
    write_props_entry(&mut out, number, props);
    out.into_bytes()
}

// The canonical spelling of a revision whose property lists are whole.
fn text_of(alloc: Global, revision: &RevRecord) -> Result<Vec<u8>, AllocError>
    requires whole { are_whole revision.now.nodes.items ≡ true }
    ensures canonical { IfOk result (λ v. v.items ≡ canon_revision revision.now) }
    ensures readable { IsReadable revision.now }
{
    let mut out = VecWriter::with_room(alloc, revision.room());
    write_revision(&mut out, revision).unwrap();
    out.into_bytes()
}

/// The entry of a new revision, or of one as it is now.
pub fn revision_bytes(
    alloc: Global,
    number: RevNo,
    set: &ChangeSet,
    props: &Props,
) -> Result<Vec<u8>, AllocError>
    ensures canonical { IfOk result (λ v. v.items ≡ spelling (Revised number set.now props.now)) }
    ensures spelled { IfOk result (λ v. Spells v.items (Revised number set.now props.now)) }
    ensures set { HasSet (Revised number set.now props.now) }
{
    // For the proof: dump text can say what a set keeps by its type.
    set.changes();
    let revision = RevRecord {
        number,
        props: props.share()?,
        nodes: set.to_records(alloc)?,
    };
    text_of(alloc, &revision)
}

/// The bytes of an entry.
pub fn entry_bytes(alloc: Global, entry: &Entry) -> Result<Vec<u8>, AllocError>
    ensures canonical { IfOk result (λ v. v.items ≡ spelling entry.now) }
    ensures spelled { IfOk result (λ v. Spells v.items entry.now) }
    ensures set { HasSet entry.now }
{
    match entry {
        Entry::Revised { number, set, props } => revision_bytes(alloc, *number, set, props),
        Entry::Mapped { number, props } => map_bytes(alloc, *number, props),
    }
}

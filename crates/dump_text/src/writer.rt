//! The canonical spelling.

ghost use Rattle.std.specs.Prelude.{◌≡◌, ◌+◌, [], ◌∷◌, length, Some, true, false, OnOk, OnErr, codes};
ghost use Rattle.std.specs.Fmt.{decimal as printed};
ghost use Rattle.node_base.specs.PathText.{path_text, slashed};
ghost use Rattle.std.specs.List.{flat_map};
ghost use Rattle.byte_streams.specs.Memory.{Adds};
ghost use Rattle.hex.specs.Hex.{encode_lower};
ghost use Rattle.md5.specs.Md5.{md5};
ghost use Rattle.dump_text.specs.Grammar.{Dump};
ghost use Rattle.dump_text.specs.Written.{AreRecords, AreFormed, are_whole, read_identity, read_revision};
ghost use Rattle.dump_text.specs.declared.record.DumpRecord.TheVariants.{Revision};
ghost use Rattle.dump_text.specs.Canon.{header_line, canon_identity, canon_head, canon_entry, canon_node};
ghost use Rattle.dump_text.specs.Canon.{canon_revision, kind_word, action_word, told_kind, kind_line, source_lines};
ghost use Rattle.dump_text.specs.Canon.{block_of, block_line, text_of, text_lines, content_line, content_of, now_of};

use crate::limits::{entry_reads_again, revision_reads_again};
use crate::record::{NodeRecord, PropPart, RevRecord};
use byte_streams::VecWriter;
use itoa::Buffer;
use node_base::{Action, NodeKind, NodeName, NodePath, Props, RevNo, Source, Text};
use thiserror::Error;
use uuid::Uuid;

/// Why a revision isn't written.
#[derive(Clone, Copy, Debug, PartialEq, Eq, Error)]
pub enum WriteFault {
    /// A node gives its properties as a delta, which format 2 can't say.
    #[error("properties as a delta")]
    PropDelta,
}

/// Writes the version block, and the identity's block where one is given.
pub fn write_head(out: &mut VecWriter, uuid: Option<&Uuid>)
    ensures bytes { Adds out.old out.new (canon_head (now_of uuid.entry)) }
    // read again, these bytes are a dump of that identity alone
    ensures again { Dump (canon_head (now_of uuid.entry)) (read_identity (now_of uuid.entry)) }
{
    out.write(b"SVN-fs-dump-format-version: 2\n\n");
    write_identity(out, uuid);
}

fn write_identity(out: &mut VecWriter, uuid: Option<&Uuid>)
    ensures bytes { Adds out.old out.new (canon_identity (now_of uuid.entry)) }
    ensures again { Dump (canon_head (now_of uuid.entry)) (read_identity (now_of uuid.entry)) }
{
    if let Some(uuid) = uuid {
        write_uuid(out, uuid);
    }
}

fn write_uuid(out: &mut VecWriter, uuid: &Uuid)
    ensures bytes { Adds out.old out.new (canon_identity (Some uuid.now)) }
    ensures again { Dump (canon_head (Some uuid.now)) (read_identity (Some uuid.now)) }
{
    let mut buffer = Uuid::encode_buffer();
    let text = uuid.hyphenated().encode_lower(&mut buffer);
    out.write(b"UUID: ");
    out.write(text.as_bytes());
    out.write(b"\n\n");
}

/// Writes a revision record: the number, the property block, and no nodes.
pub fn write_props_entry(out: &mut VecWriter, number: RevNo, props: &Props)
    ensures bytes { Adds out.old out.new (canon_entry number props.now) }
    // read again, these bytes are that record, whatever stands before them
    ensures again { AreRecords (canon_entry number props.now) (Revision number props.now ∷ []) }
{
    entry_reads_again(number, props);
    write_entry(out, number, props);
}

// Writes a header line: its name with colon and blank, its value, an LF.
fn write_line(out: &mut VecWriter, name: &[u8], value: &[u8])
    ensures { Adds out.old out.new (header_line name.now value.now) }
{
    out.write(name);
    out.write(value);
    out.write(b"\n");
}

// Writes a header line with a number.
fn write_count(out: &mut VecWriter, name: &[u8], count: u64)
    ensures { Adds out.old out.new (header_line name.now (printed count)) }
{
    let mut digits = Buffer::new();
    write_line(out, name, digits.format(count).as_bytes());
}

// Writes names, each behind a slash.
fn write_slashed(out: &mut VecWriter, names: &[NodeName])
    ensures { Adds out.old out.new (slashed names.now) }
{
    for name in names {
        out.write(b"/");
        out.write(name.as_str().as_bytes());
    }
}

// Writes a name, and others behind slashes.
fn write_first(out: &mut VecWriter, first: &NodeName, rest: &[NodeName])
    ensures { Adds out.old out.new (path_text (first.now ∷ rest.now)) }
{
    out.write(first.as_str().as_bytes());
    write_slashed(out, rest);
}

// Writes names with a slash between each two.
fn write_names(out: &mut VecWriter, names: &[NodeName])
    ensures { Adds out.old out.new (path_text names.now) }
{
    if let Some((first, rest)) = names.split_first() {
        write_first(out, first, rest);
    }
}

// Writes a header line with a path.
fn write_path(out: &mut VecWriter, name: &[u8], path: &NodePath)
    ensures { Adds out.old out.new (header_line name.now (path_text path.now)) }
{
    out.write(name);
    write_names(out, path.names());
    out.write(b"\n");
}

fn write_entry(out: &mut VecWriter, number: RevNo, props: &Props)
    ensures { Adds out.old out.new (canon_entry number props.now) }
{
    let len = props.block_len();
    write_count(out, b"Revision-number: ", u64::from(number.get()));
    write_count(out, b"Prop-content-length: ", len);
    write_count(out, b"Content-length: ", len);
    out.write(b"\n");
    props.write_block(out);
    out.write(b"\n");
}

/// Writes a revision with its nodes, in the order in which they stand. PropDelta where a node gives its properties as a
/// delta, and only there; then nothing is written.
pub fn write_revision(out: &mut VecWriter, revision: &RevRecord) -> Result<(), WriteFault>
    ensures bytes { OnOk result (Adds out.old out.new (canon_revision revision.now)) }
    ensures whole { OnOk result (are_whole revision.now.nodes.items ≡ true) }
    ensures unwritten { OnErr result ((are_whole revision.now.nodes.items ≡ false) × (out.new ≡ out.old)) }
    // read again, these bytes are the same records, but that a deletion's kind isn't written
    ensures again { AreFormed revision.now.nodes.items → AreRecords (canon_revision revision.now)
        (read_revision revision.now) }
{
    revision_reads_again(revision);
    if !revision.is_whole() {
        return Err(WriteFault::PropDelta);
    }
    write_whole(out, revision);
    Ok(())
}

// Writes a revision with its nodes.
fn write_whole(out: &mut VecWriter, revision: &RevRecord)
    ensures { Adds out.old out.new (canon_revision revision.now) }
{
    write_entry(out, revision.number, &revision.props);
    write_nodes(out, revision.nodes.as_slice());
}

fn write_nodes(out: &mut VecWriter, nodes: &[NodeRecord])
    ensures { Adds out.old out.new (flat_map canon_node nodes.now) }
{
    for node in nodes {
        write_node(out, node);
    }
}

fn write_node(out: &mut VecWriter, node: &NodeRecord)
    ensures { Adds out.old out.new (canon_node node.now) }
{
    let action = action_word(node.action);
    write_path(out, b"Node-path: ", &node.path);
    write_kind(out, told_kind(node.action, node.kind));
    write_line(out, b"Node-action: ", action.as_bytes());
    write_source(out, &node.source);
    write_block_line(out, &node.props);
    write_text_lines(out, &node.text);
    write_content_line(out, &node.props, &node.text);
    write_content(out, &node.props, &node.text);
}

fn kind_word(kind: NodeKind) -> &'static str
    ensures { result.now ≡ kind_word kind }
{
    match kind {
        NodeKind::File => "file",
        NodeKind::Dir => "dir",
    }
}

fn action_word(action: Action) -> &'static str
    ensures { result.now ≡ action_word action }
{
    match action {
        Action::Modify => "change",
        Action::Add => "add",
        Action::Delete => "delete",
        Action::Replace => "replace",
    }
}

/// The kind that is written: none at a deletion.
fn told_kind(action: Action, kind: Option<NodeKind>) -> Option<NodeKind>
    ensures { result ≡ told_kind action kind }
{
    match action {
        Action::Delete => None,
        _ => kind,
    }
}

fn write_kind(out: &mut VecWriter, kind: Option<NodeKind>)
    ensures { Adds out.old out.new (kind_line kind) }
{
    if let Some(kind) = kind {
        let word = kind_word(kind);
        write_line(out, b"Node-kind: ", word.as_bytes());
    }
}

fn write_source(out: &mut VecWriter, source: &Option<Source>)
    ensures { Adds out.old out.new (source_lines source.now) }
{
    if let Some(source) = source {
        let number = source.revision;
        write_count(out, b"Node-copyfrom-rev: ", u64::from(number.get()));
        write_path(out, b"Node-copyfrom-path: ", &source.path);
    }
}

fn write_block_line(out: &mut VecWriter, props: &Option<PropPart>)
    ensures { Adds out.old out.new (block_line props.now) }
{
    if let Some(PropPart::Whole(props)) = props {
        write_count(out, b"Prop-content-length: ", props.block_len());
    }
}

fn write_text_lines(out: &mut VecWriter, text: &Option<Text>)
    ensures { Adds out.old out.new (text_lines text.now) }
{
    if let Some(text) = text {
        write_count(out, b"Text-content-length: ", text.len() as u64);
        write_sum(out, text);
    }
}

fn write_sum(out: &mut VecWriter, text: &Text)
    ensures { Adds out.old out.new (header_line (codes "Text-content-md5: ") (encode_lower (md5 text.now))) }
{
    let digits = hex_of(text.sum());
    out.write(b"Text-content-md5: ");
    out.write(digits.as_slice());
    out.write(b"\n");
}

/// A sum in 32 hexadecimal digits, in lower case.
fn hex_of(sum: [u8; 16]) -> [u8; 32]
    ensures { result ≡ encode_lower sum }
{
    let mut digits = [0; 32];
    let written = hex::encode_to_slice(sum.as_slice(), &mut digits);
    written.unwrap();
    digits
}

/// How many bytes the block and the text have together.
fn content_len(props: &Option<PropPart>, text: &Option<Text>) -> u128
    ensures { result ≡ length (block_of props.now) + length (text_of text.now) }
{
    let block = match props {
        Some(PropPart::Whole(props)) => u128::from(props.block_len()),
        _ => 0,
    };
    match text {
        Some(text) => block + text.len() as u128,
        None => block,
    }
}

fn write_content_line(out: &mut VecWriter, props: &Option<PropPart>, text: &Option<Text>)
    ensures { Adds out.old out.new (content_line props.now text.now) }
{
    if props.is_some() || text.is_some() {
        let mut digits = Buffer::new();
        let len = digits.format(content_len(props, text));
        write_line(out, b"Content-length: ", len.as_bytes());
    }
}

fn write_block(out: &mut VecWriter, props: &Option<PropPart>)
    ensures { Adds out.old out.new (block_of props.now) }
{
    if let Some(PropPart::Whole(props)) = props {
        props.write_block(out);
    }
}

fn write_text(out: &mut VecWriter, text: &Option<Text>)
    ensures { Adds out.old out.new (text_of text.now) }
{
    if let Some(text) = text {
        out.write(text.as_slice());
    }
}

/// Writes an empty line, what the lengths announce, and two LF.
fn write_content(out: &mut VecWriter, props: &Option<PropPart>, text: &Option<Text>)
    ensures { Adds out.old out.new (content_of props.now text.now) }
{
    out.write(b"\n");
    write_block(out, props);
    write_text(out, text);
    out.write(b"\n\n");
}

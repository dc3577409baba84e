//! What an empty line judges: whether headers go together, and their lengths.

ghost use Rattle.std.specs.Prelude.{◌≡◌, Option, Some, None};
ghost use Rattle.dump_text.specs.Forms.{fits_form, has_no_node, is_identity_head, has_source_form, is_node_head};
ghost use Rattle.dump_text.specs.Forms.{lengths_agree, lengths_fit, is_deletion, is_making, is_first, is_inside};
ghost use Rattle.dump_text.specs.Forms.{source_of, part_of, whole_of, record_of, stage_after, is_delta, gives_delta};
ghost use Rattle.dump_text.specs.Forms.{has_delta, may_be_delta, text_limit, delta_of, node_with};

use crate::delta::DeltaBytes;
use crate::head::Head;
use crate::limits::DELTA_BYTES;
use crate::record::{DeltaText, DumpRecord, NodeRecord, PropPart, TextPart};
use node_base::limits::{BLOCK_BYTES, TEXT_BYTES};
use node_base::{Action, BlockReader, NodePath, Props, RevNo, Source};

/// Which records may stand here.
#[derive(Clone, Copy)]
pub enum Stage {
    /// No record has come: an identity may.
    First,
    /// An identity has come, and no revision.
    Outside,
    /// A revision has come: its nodes may.
    Inside,
}

fn is_deletion(action: Option<Action>) -> bool
    ensures { result ≡ is_deletion action }
{
    match action {
        Some(Action::Delete) => true,
        _ => false,
    }
}

fn is_making(action: Option<Action>) -> bool
    ensures { result ≡ is_making action }
{
    match action {
        Some(Action::Add) | Some(Action::Replace) => true,
        _ => false,
    }
}

/// Whether there is nothing of a node.
fn has_no_node(head: &Head) -> bool
    ensures { result ≡ has_no_node head.now }
{
    head.path.is_none()
        && head.kind.is_none()
        && head.action.is_none()
        && head.source_revision.is_none()
        && head.source_path.is_none()
        && head.text_len.is_none()
        && head.sum.is_none()
}

fn is_identity_head(head: &Head) -> bool
    ensures { result ≡ is_identity_head head.now }
{
    has_no_node(head)
        && head.number.is_none()
        && head.prop_len.is_none()
        && head.content_len.is_none()
}

fn has_source_form(head: &Head) -> bool
    ensures { result ≡ has_source_form head.now }
{
    if head.source_path.is_some() {
        head.source_revision.is_some() && is_making(head.action)
    } else {
        head.source_revision.is_none()
    }
}

fn is_node_head(head: &Head) -> bool
    ensures { result ≡ is_node_head head.now }
{
    head.path.is_some()
        && head.action.is_some()
        && has_source_form(head)
        && !(is_deletion(head.action) && (head.prop_len.is_some() || head.text_len.is_some()))
}

fn is_first(stage: Stage) -> bool
    ensures { result ≡ is_first stage }
{
    match stage {
        Stage::First => true,
        _ => false,
    }
}

fn is_inside(stage: Stage) -> bool
    ensures { result ≡ is_inside stage }
{
    match stage {
        Stage::Inside => true,
        _ => false,
    }
}

/// Whether the properties are announced as a delta.
pub fn is_delta(head: &Head) -> bool
    ensures { result ≡ is_delta head.now }
{
    head.prop_delta.unwrap_or(false)
}

/// Whether the text is given as a delta, where it stands.
pub fn gives_delta(head: &Head) -> bool
    ensures { result ≡ gives_delta head.now }
{
    head.text_delta.unwrap_or(false)
}

/// Whether the properties or the text are a delta.
fn has_delta(head: &Head) -> bool
    ensures { result ≡ has_delta head.now }
{
    is_delta(head) || gives_delta(head)
}

/// Whether they may be: in format 3, of a node.
fn may_be_delta(version: u8, head: &Head) -> bool
    ensures { result ≡ may_be_delta version head.now }
{
    version == 3 && head.identity.is_none() && head.number.is_none()
}

/// Whether the headers are those of a record that may stand here, in the format of that number.
pub fn has_form(version: u8, stage: Stage, head: &Head) -> bool
    ensures { result ≡ fits_form version stage head.now }
{
    if has_delta(head) && !may_be_delta(version, head) {
        return false;
    }
    if head.identity.is_some() {
        is_first(stage) && is_identity_head(head)
    } else if head.number.is_some() {
        has_no_node(head)
    } else {
        is_inside(stage) && is_node_head(head)
    }
}

/// Whether `Content-length`, where it stands, is the sum of the two other lengths.
pub fn has_sum_of_lengths(head: &Head) -> bool
    ensures { result ≡ lengths_agree head.now }
{
    let Some(n) = head.content_len else {
        return true;
    };
    let props = head.prop_len.unwrap_or(0);
    let text = head.text_len.unwrap_or(0);
    n >= props && n - props == text
}

/// How many bytes the text may have, or the delta that gives it.
fn text_limit(head: &Head) -> u64
    ensures { result ≡ text_limit head.now }
{
    if gives_delta(head) {
        DELTA_BYTES
    } else {
        TEXT_BYTES
    }
}

/// Whether the lengths are within the limits.
pub fn has_small_lengths(head: &Head) -> bool
    ensures { result ≡ lengths_fit head.now }
{
    head.prop_len.unwrap_or(0) <= BLOCK_BYTES && head.text_len.unwrap_or(0) <= text_limit(head)
}

fn source_from(path: Option<NodePath>, revision: Option<RevNo>) -> Option<Source>
    ensures { result ≡ source_of path revision }
{
    let Some(path) = path else {
        return None;
    };
    let Some(revision) = revision else {
        return None;
    };
    Some(Source { path, revision })
}

/// What a whole block says, which was read as a delta or as a whole list.
pub fn part_from(delta: bool, block: &mut BlockReader) -> PropPart
    ensures { result ≡ part_of delta block.old.props block.old.removed }
{
    if delta {
        PropPart::Delta(block.take_delta())
    } else {
        PropPart::Whole(block.take())
    }
}

/// The whole list that a block gives, or none where there is no block. A delta gives none.
fn whole_from(props: Option<PropPart>) -> Option<Props>
    ensures { result ≡ whole_of props }
{
    match props {
        None => Some(Props::empty()),
        Some(PropPart::Whole(props)) => Some(props),
        Some(PropPart::Delta(_)) => None,
    }
}

/// These bytes as the delta that a head announces, with the head's sums.
pub fn delta_from(head: &Head, bytes: Vec<u8>) -> DeltaText
    ensures { result ≡ delta_of head.now bytes.items }
{
    DeltaText {
        bytes: DeltaBytes::new(bytes),
        base_sum: head.base_sum,
        sum: head.sum,
    }
}

/// A node that has no text yet, with what is given of its text.
fn node_with(mut node: NodeRecord, text: Option<TextPart>) -> DumpRecord
    ensures { result ≡ node_with node text }
{
    match text {
        None => DumpRecord::Node(node),
        Some(TextPart::Whole(text)) => {
            node.text = Some(text);
            DumpRecord::Node(node)
        }
        Some(TextPart::Delta(delta)) => DumpRecord::DeltaNode(node, delta),
    }
}

/// The record of a head and its content, where it is one.
pub fn record_from(
    head: Head,
    props: Option<PropPart>,
    text: Option<TextPart>,
) -> Option<DumpRecord>
    ensures { result ≡ record_of head props text }
{
    let Head {
        identity,
        number,
        path,
        kind,
        action,
        source_revision,
        source_path,
        ..
    } = head;
    if let Some(identity) = identity {
        return Some(DumpRecord::Identity(identity));
    }
    if let Some(number) = number {
        let Some(props) = whole_from(props) else {
            return None;
        };
        return Some(DumpRecord::Revision(number, props));
    }
    let Some(path) = path else {
        return None;
    };
    let Some(action) = action else {
        return None;
    };
    let node = NodeRecord {
        path,
        kind,
        action,
        source: source_from(source_path, source_revision),
        props,
        text: None,
    };
    Some(node_with(node, text))
}

/// Which records may stand behind a record.
pub fn stage_behind(stage: Stage, given: &DumpRecord) -> Stage
    ensures { result ≡ stage_after stage given.now }
{
    match given {
        DumpRecord::Identity(_) => Stage::Outside,
        DumpRecord::Revision(_, _) => Stage::Inside,
        DumpRecord::Node(_) | DumpRecord::DeltaNode(_, _) => stage,
    }
}

//! Records of a dump.

ghost use Rattle.std.specs.Prelude.{◌≡◌, true, false};
ghost use Rattle.dump_text.specs.Written.{is_whole_part, are_whole};

use crate::delta::DeltaBytes;
use node_base::{Action, NodeKind, NodePath, PropDelta, Props, RevNo, Source, Text};
use uuid::Uuid;

/// What a record gives of properties: the whole list, or, in format 3, changes of the list that is there.
#[derive(Drop)]
pub enum PropPart {
    Whole(Props),
    Delta(PropDelta),
}

/// A node record: one change of a revision. A part that is missing is left as it was.
#[derive(Drop)]
pub struct NodeRecord {
    pub path: NodePath,
    pub kind: Option<NodeKind>,
    pub action: Action,
    pub source: Option<Source>,
    pub props: Option<PropPart>,
    pub text: Option<Text>,
}

/// A text that is given as a delta: its bytes, as they stand in the dump, and the sums that stand beside them.
#[derive(Drop)]
pub struct DeltaText {
    pub bytes: DeltaBytes,
    /// The MD5 of the text that the delta is over (`Text-delta-base-md5`).
    pub base_sum: Option<[u8; 16]>,
    /// The MD5 of the text that it makes (`Text-content-md5`).
    pub sum: Option<[u8; 16]>,
}

/// What a record gives of a text: the whole text, or a delta.
#[derive(Drop)]
pub enum TextPart {
    Whole(Text),
    Delta(DeltaText),
}

/// A whole revision: its number, its properties, and its node records.
#[derive(Drop)]
pub struct RevRecord {
    pub number: RevNo,
    pub props: Props,
    pub nodes: Vec<NodeRecord>,
}

impl NodeRecord {
    /// Whether what it gives of properties, if anything, is the whole list.
    pub fn is_whole(&self) -> bool
        ensures { result ≡ is_whole_part self.now.props }
    {
        !matches!(self.props, Some(PropPart::Delta(_)))
    }
}

// What a node's headers have, more or less.
const NODE_BYTES: usize = 512;

impl RevRecord {
    /// Room for its spelling, more or less: its texts, and some bytes for each node.
    pub fn room(&self) -> usize {
        let mut room = NODE_BYTES;
        for node in &self.nodes {
            room = room.saturating_add(NODE_BYTES);
            if let Some(text) = &node.text {
                room = room.saturating_add(text.len());
            }
        }
        room
    }

    /// Whether that is so of each node, so that the revision may be written.
    pub fn is_whole(&self) -> bool
        ensures { result ≡ are_whole self.now.nodes.items }
    {
        for node in &self.nodes {
            if !node.is_whole() {
                return false;
            }
        }
        true
    }
}

/// A record of a stream: the repository's identity, the beginning of a revision with its properties, or a node of that
/// revision. A node whose text is given as a delta stands beside that delta, and has no text itself.
#[derive(Drop)]
pub enum DumpRecord {
    Identity(Uuid),
    Revision(RevNo, Props),
    Node(NodeRecord),
    DeltaNode(NodeRecord, DeltaText),
}

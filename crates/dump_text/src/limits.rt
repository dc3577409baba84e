//! How long a delta may be; and, for proofs, what the types of a record's parts keep: functions that change nothing and
//! answer nothing.

ghost use Rattle.std.specs.Prelude.{◌≡◌, ◌≤◌, [], ◌∷◌, true};
ghost use Rattle.node_base.specs.Props.{IsProps};
ghost use Rattle.node_base.specs.PathText.{is_path};
ghost use Rattle.node_base.specs.declared.limits.TheConstants.{REVISION};
ghost use Rattle.dump_text.specs.Canon.{canon_entry, canon_revision};
ghost use Rattle.dump_text.specs.Written.{IsKept, IsKeptSource, IsKeptPart, AreKept, AreFormed, AreRecords};
ghost use Rattle.dump_text.specs.Written.{read_revision};
ghost use Rattle.dump_text.specs.declared.record.DumpRecord.TheVariants.{Revision};

use crate::record::{NodeRecord, PropPart, RevRecord};
use node_base::limits::TEXT_BYTES;
use node_base::{NodePath, Props, RevNo, Source};

/// How many bytes the delta of a text may have: twice as many as a text.
pub const DELTA_BYTES: u64 = 2 * TEXT_BYTES;

/// A revision number is at most 65,535.
fn number_limit(number: RevNo)
    ensures { number ≤ REVISION }
{
    number.get();
}

/// Properties are within their limits.
fn props_limits(props: &Props)
    ensures { IsProps props.now }
{
    props.entries();
}

fn path_limits(path: &NodePath)
    ensures { is_path path.now ≡ true }
{
    path.names();
}

fn source_limits(source: &Option<Source>)
    ensures { IsKeptSource source.now }
{
    if let Some(source) = source {
        path_limits(&source.path);
        number_limit(source.revision);
    }
}

fn part_limits(props: &Option<PropPart>)
    ensures { IsKeptPart props.now }
{
    match props {
        Some(PropPart::Whole(props)) => props_limits(props),
        Some(PropPart::Delta(delta)) => props_limits(&delta.sets),
        None => {}
    }
}

/// The parts of a node are within their limits.
fn node_limits(node: &NodeRecord)
    ensures { IsKept node.now }
{
    path_limits(&node.path);
    source_limits(&node.source);
    part_limits(&node.props);
}

fn nodes_limits(nodes: &[NodeRecord])
    ensures { AreKept nodes.now }
{
    for node in nodes {
        node_limits(node);
    }
}

/// What is written of a revision without nodes is read again, whatever stands before it.
pub fn entry_reads_again(number: RevNo, props: &Props)
    ensures { AreRecords (canon_entry number props.now) (Revision number props.now ∷ []) }
{
    number_limit(number);
    props_limits(props);
}

/// What is written of a revision is read again, whatever stands before it.
pub fn revision_reads_again(revision: &RevRecord)
    ensures { AreFormed revision.now.nodes.items → AreRecords (canon_revision revision.now)
        (read_revision revision.now) }
{
    number_limit(revision.number);
    props_limits(&revision.props);
    nodes_limits(revision.nodes.as_slice());
}

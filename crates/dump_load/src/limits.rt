//! What the types of a change's parts keep, for proofs: functions that change nothing and answer nothing.
ghost use Rattle.std.specs.Prelude.{IfSome};
ghost use Rattle.std.specs.List.{AllByRecursion};
ghost use Rattle.dump_load.specs.Bounds.{IsSource, IsSmall};

use crate::Change;
use node_base::Source;
use path_tree::limits::{path_limits, props_limits, text_limits};

fn source_limits(source: &Option<Source>)
    ensures { IfSome source.now IsSource }
{
    if let Some(source) = source {
        path_limits(&source.path);
        source.revision.get();
    }
}

/// The parts of a change are within their limits.
pub fn change_limits(change: &Change)
    ensures { IsSmall change.now }
{
    path_limits(&change.path);
    source_limits(&change.source);
    props_limits(&change.props);
    text_limits(&change.text);
}

/// So are those of each of some changes.
pub fn changes_limits(changes: &[Change])
    ensures { AllByRecursion IsSmall changes.now }
{
    for change in changes {
        change_limits(change);
    }
}

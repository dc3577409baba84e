//! What a log tells of each change of a revision.
ghost use Rattle.std.specs.Prelude.{◌≡◌};
ghost use Rattle.path_history.specs.Logs.{letter, tells_props, changed_path};

use dump_load::Change;
use node_base::{Action, NodeKind};

/// What a log tells of a change, beside its path and its source.
#[derive(Clone, Copy, PartialEq, Eq)]
pub struct ChangedPath {
    /// `A`, `D`, `R`, or `M` for a change of what is there.
    pub letter: u8,
    /// What the node is, where the change says it.
    pub kind: Option<NodeKind>,
    /// Whether it gives a text.
    pub text: bool,
    /// Whether it gives properties: where it adds something that is no copy, one at least.
    pub props: bool,
}

/// The letter of an action.
fn letter(action: Action) -> u8
    ensures { result ≡ letter action }
{
    match action {
        Action::Modify => b'M',
        Action::Add => b'A',
        Action::Delete => b'D',
        Action::Replace => b'R',
    }
}

// Whether a change tells of properties.
fn tells_props(change: &Change) -> bool
    ensures { result ≡ tells_props change.now }
{
    match &change.props {
        Some(props) => !(change.is_plain() && props.is_empty()),
        None => false,
    }
}

/// What a log tells of a change.
pub fn changed_path(change: &Change) -> ChangedPath
    ensures { result ≡ changed_path change.now }
{
    ChangedPath {
        letter: letter(change.action),
        kind: change.kind,
        text: change.text.is_some(),
        props: tells_props(change),
    }
}

//! The calls that change one node, bit by bit, and no number: for a tree that is being built.
ghost use Rattle.std.specs.Prelude.{◌≡◌, [], None, Some, OnOk, OnErr, is_some};
ghost use Rattle.std.specs.FinMap as map;
ghost use Rattle.node_base.specs.Path.{Path};
ghost use Rattle.node_base.specs.NodeEdits.{with_prop, with_piece};
ghost use Rattle.node_base.specs.Tree.{changed_at, with_given};
ghost use Rattle.path_tree.specs.Calls.{Answers, text_fault};
ghost use Rattle.path_tree.specs.NodeCalls.{prop_fault, piece_fault};

use crate::edit::Edit;
use crate::limits::{name_limits, value_limits};
use crate::{Tree, TreeError};
use node_base::limits::TEXT_BYTES;
use node_base::{Node, NodePath, PropName, PropValue, Text, TreeFault};
use std::alloc::Global;

impl Tree {
    /// Puts a value at a property's name, or takes the one there away. Refused: as `set_props` is, and then a value
    /// that takes the node's properties past their limits (8).
    pub fn put_prop(
        &mut self,
        alloc: Global,
        path: &NodePath,
        name: PropName,
        value: Option<PropValue>,
    ) -> Result<(), TreeError>
        ensures answer { Answers (prop_fault (map.get self.old) path.now name (is_some value)) result }
        ensures ok { OnOk result ((q : Path)
            → map.get self.new q ≡ changed_at (map.get self.old) path.now (with_prop name value) q) }
        ensures err { OnErr result (self.new ≡ self.old) }
    {
        if let Some(fault) = self.prop_fault(path, &name, value.is_some()) {
            return Err(TreeError::Fault(fault));
        }
        self.limits();
        name_limits(&name);
        value_limits(&value);
        Ok(self.edit(alloc, path.names(), &Edit::Prop(name, value))?)
    }

    /// Puts an empty text in the place of a file's. Refused: as `set_text` is.
    pub fn start_text(&mut self, alloc: Global, path: &NodePath) -> Result<(), TreeError>
        ensures answer { Answers (text_fault (map.get self.old) path.now) result }
        ensures ok { OnOk result ((q : Path)
            → map.get self.new q ≡ changed_at (map.get self.old) path.now (with_given (Some []) None) q) }
        ensures err { OnErr result (self.new ≡ self.old) }
    {
        if let Some(fault) = self.text_fault(path) {
            return Err(TreeError::Fault(fault));
        }
        self.limits();
        let text = Text::empty(alloc)?;
        Ok(self.edit(alloc, path.names(), &Edit::Parts(Some(text), None))?)
    }

    /// Puts bytes behind a file's text. Refused: as `set_text` is, and then a text past 1,048,576 bytes (8).
    pub fn append_text(
        &mut self,
        alloc: Global,
        path: &NodePath,
        piece: &[u8],
    ) -> Result<(), TreeError>
        ensures answer { Answers (piece_fault (map.get self.old) path.now piece.now) result }
        ensures ok { OnOk result ((q : Path)
            → map.get self.new q ≡ changed_at (map.get self.old) path.now (with_piece piece.now) q) }
        ensures err { OnErr result (self.new ≡ self.old) }
    {
        if let Some(fault) = self.piece_fault(path, piece) {
            return Err(TreeError::Fault(fault));
        }
        self.limits();
        let piece = Vec::from_slice(alloc, piece)?;
        Ok(self.edit(alloc, path.names(), &Edit::Piece(piece))?)
    }

    fn prop_fault(&self, path: &NodePath, name: &PropName, puts: bool) -> Option<TreeFault>
        ensures { result ≡ prop_fault (map.get self.now) path.now name.now puts }
    {
        if let Some(fault) = self.change_fault(path) {
            return Some(fault);
        }
        match self.get(path.names()) {
            Some(node) => {
                if puts && !node.props.fits_with(name.as_bytes()) {
                    return Some(TreeFault::TooLong);
                }
                None
            }
            None => None,
        }
    }

    fn piece_fault(&self, path: &NodePath, piece: &[u8]) -> Option<TreeFault>
        ensures { result ≡ piece_fault (map.get self.now) path.now piece.now }
    {
        if let Some(fault) = self.text_fault(path) {
            return Some(fault);
        }
        match self.get(path.names()) {
            Some(
                Node {
                    text: Some(text),
                    ..
                },
            ) => {
                if text.len().saturating_add(piece.len()) as u64 > TEXT_BYTES {
                    return Some(TreeFault::TooLong);
                }
                None
            }
            _ => None,
        }
    }
}

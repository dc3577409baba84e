//! Nodes, their kinds, and what is done to them.
ghost use Rattle.std.specs.Prelude.{◌≡◌, IfOk, IfErr, OnOk, OnErr};
ghost use Rattle.node_base.specs.NodeEdits.{with_prop, with_piece, put_fault};
ghost use Rattle.node_base.specs.Texts.{piece_fault};
ghost use Rattle.node_base.specs.Tree.{with_given, new_dir, kind_of};

use crate::{NodePath, PropFault, PropName, PropValue, Props, RevNo, Text, TextFault};
use std::alloc::{AllocError, Global};

/// The kind of a node.
#[derive(Clone, Copy, PartialEq, Eq)]
pub enum NodeKind {
    File,
    Dir,
}

/// What a change does to its path. `Modify` is spelled `change` in a dump.
#[derive(Clone, Copy, PartialEq, Eq)]
pub enum Action {
    Modify,
    Add,
    Delete,
    Replace,
}

/// Where a copy comes from: a path in an earlier revision.
#[derive(Drop)]
pub struct Source {
    pub path: NodePath,
    pub revision: RevNo,
}

/// A file, which has a text, or a directory, which has none; its properties, and the revision that last changed it.
#[derive(Drop)]
pub struct Node {
    pub text: Option<Text>,
    pub props: Props,
    pub changed: RevNo,
}

impl Node {
    /// A directory without properties that nothing has changed.
    pub fn new_dir() -> Node
        ensures { result ≡ new_dir }
    {
        Node {
            text: None,
            props: Props::empty(),
            changed: RevNo::ZERO,
        }
    }

    /// Whether it is a file or a directory.
    pub fn kind(&self) -> NodeKind
        ensures { result ≡ kind_of self.now }
    {
        match &self.text {
            Some(_) => NodeKind::File,
            None => NodeKind::Dir,
        }
    }

    /// Puts a text and properties where they are given.
    pub fn put_parts(&mut self, text: Option<Text>, props: Option<Props>)
        ensures { self.new ≡ with_given text props self.old }
    {
        if let Some(text) = text {
            self.text = Some(text);
        }
        if let Some(props) = props {
            self.props = props;
        }
    }

    /// Puts a value at a property's name, or takes the one there away. TooLong where the properties would pass their
    /// limits. At an error the node stays.
    pub fn put_prop(
        &mut self,
        alloc: Global,
        name: PropName,
        value: Option<PropValue>,
    ) -> Result<(), PropFault>
        ensures ok { OnOk result (self.new ≡ with_prop name value self.old) }
        ensures fault { IfErr result (λ e. e ≡ put_fault name value self.old.props) }
        ensures err { OnErr result (self.new ≡ self.old) }
    {
        match value {
            Some(value) => self.props.set(alloc, name, value),
            None => Ok(self.props.remove(alloc, name.as_bytes())?),
        }
    }

    /// Puts bytes behind a file's text. TooLong where it would have more than 1,048,576. A directory stays as it is,
    /// and so does the node at an error.
    pub fn append_text(&mut self, alloc: Global, piece: &[u8]) -> Result<(), TextFault>
        ensures ok { OnOk result (self.new ≡ with_piece piece.now self.old) }
        ensures fault { IfErr result (λ e. e ≡ piece_fault piece.now self.old.text) }
        ensures err { OnErr result (self.new ≡ self.old) }
    {
        match &mut self.text {
            Some(text) => text.append(alloc, piece),
            None => Ok(()),
        }
    }

    /// The same node for another owner, with no copy of its text or properties.
    pub fn share(&self) -> Result<Node, AllocError>
        ensures { IfOk result (λ n. n ≡ self.now) }
    {
        let text = match &self.text {
            Some(text) => Some(text.share()?),
            None => None,
        };
        Ok(Node {
            text,
            props: self.props.share()?,
            changed: self.changed,
        })
    }
}

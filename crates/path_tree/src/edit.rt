//! Edits of a node and what is below it.
ghost use Rattle.std.specs.Prelude.{◌≡◌, IfOk};

use crate::child::Child;
use node_base::{NodeName, PropName, PropValue, Props, Text};
use std::alloc::{AllocError, Global};

// What is done at one node.
#[derive(Drop)]
pub enum Edit {
    /// Gives it a text and properties, where they are given.
    Parts(Option<Text>, Option<Props>),
    /// Puts a value at the name of a property, or takes the one there away.
    Prop(PropName, Option<PropValue>),
    /// Puts bytes behind a file's text.
    Piece(Vec<u8>),
    /// Puts a child in the place of the one of its name.
    Graft(Child),
    /// Removes the child of that name.
    Prune(NodeName),
}

/// The text for another owner, where there is one.
pub fn share_text(text: &Option<Text>) -> Result<Option<Text>, AllocError>
    ensures { IfOk result (λ t. t ≡ text.now) }
{
    match text {
        Some(text) => Ok(Some(text.share()?)),
        None => Ok(None),
    }
}

/// The properties for another owner, where there are some.
pub fn share_props(props: &Option<Props>) -> Result<Option<Props>, AllocError>
    ensures { IfOk result (λ p. p ≡ props.now) }
{
    match props {
        Some(props) => Ok(Some(props.share()?)),
        None => Ok(None),
    }
}

/// The value once more, where there is one.
pub fn copy_value(alloc: Global, value: &Option<PropValue>) -> Result<Option<PropValue>, AllocError>
    ensures { IfOk result (λ v. v ≡ value.now) }
{
    match value {
        Some(value) => Ok(Some(value.copy(alloc)?)),
        None => Ok(None),
    }
}

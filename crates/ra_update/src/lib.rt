//! What a working copy is told that is updated: the edit that makes the target's tree of the tree that it reported.
//!
//! [`send_update`] writes the edit as commands of the ra_svn protocol. What it changes is a list of changes, one for
//! each path at which the two trees differ, and its calls are those that the list is driven as. Behind each call that
//! opens or adds something stand the properties `svn:entry:*`, which a client keeps apart from a node's own. A call that
//! gives a property a value which the reported tree has there, in a node of that kind, is left out: to a client that
//! changed the property itself it would be a conflict.
#![tactic(auto)]

mod batons;
mod editor;
mod facts;
mod names;
mod reported;
mod send;
mod unflushed;
mod update;

pub use facts::Facts;
pub use update::send_update;

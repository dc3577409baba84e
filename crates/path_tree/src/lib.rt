//! Trees of a Subversion repository, seen by contracts as finite maps from paths to nodes.
#![tactic(auto)]

pub use children::{ChildNode, Children};
pub use error::TreeError;
pub use listing::Entry;
pub use tree::Tree;
pub use visit::Visitor;

mod branch;
mod calls;
mod child;
mod children;
mod edit;
mod error;
mod head;
pub mod limits;
mod listing;
mod node_calls;
mod order;
mod reach;
mod row;
mod tree;
mod visit;

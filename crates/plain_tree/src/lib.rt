//! Trees whose nodes are owned by the node above them: the plain program of the definition, to be read and to be
//! compared with. A copy copies each node, and a name is looked for from the first child on; it isn't meant to be
//! fast. Its calls carry the clauses of `path_tree`.
#![tactic(auto)]

pub use tree::Tree;

mod branch;
mod calls;
mod places;
mod tree;

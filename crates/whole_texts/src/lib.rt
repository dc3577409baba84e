//! Whole texts of a revision's node records, where a dump gives them as deltas.
#![tactic(auto)]

pub use make::make_whole;
pub use read_node::ReadNode;
pub use refusal::{TextRefusal, text_refusal};

mod base;
pub mod laws;
mod made;
mod make;
mod read_node;
mod refusal;
mod settled;

//! A set of changes over the wire: sent as the commands of an edit, and received from them as a set of the same effect.
//! The laws tie the calls that a set is driven as, the bytes that an editor writes of them, and the set that an editor
//! builds of what is read of those bytes, however they are cut.
#![tactic(auto)]

pub mod law;
pub mod receive;
pub mod receive_deltas;
pub mod send;

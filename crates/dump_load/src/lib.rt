//! Change sets of revisions, and what they make of trees.
#![tactic(auto)]

pub use change::{Change, is_add, is_delete, settles, share_props, share_text};
pub use fault::{ChangeFault, change_refusal};
pub use judge::{fault_of, judged, source_node};
pub use load::{Applied, apply, load_revision};
pub use order::{count_paths, in_path_order};
pub use set::ChangeSet;
pub use steps::{begin, blank, next_number, step};

mod change;
mod delta;
mod fault;
mod fill;
mod judge;
pub mod laws;
mod limits;
mod load;
mod normal;
mod order;
mod records;
mod set;
mod steps;

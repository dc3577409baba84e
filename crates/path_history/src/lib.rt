//! The history of paths, from the change sets of revisions: where what stands at a path came from, and which revisions
//! touched it.
#![tactic(auto)]

pub use asked::Asked;
pub use back::{joined, origin};
pub use changed::{ChangedPath, changed_path};
pub use fault::HistoryFault;
pub use history::history_of;
pub use log::log_of;
pub use lookup::{governing, touches};
pub use peg::place_at;
pub use place::Place;
pub use sets::{SetRow, Sets};
pub use stretch::{Stretch, stretch_of};

mod asked;
mod back;
mod changed;
mod fault;
mod history;
pub mod laws;
mod log;
mod lookup;
mod peg;
mod place;
mod sets;
mod stretch;

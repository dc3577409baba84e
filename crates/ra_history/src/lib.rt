//! What `log` and `get-locations` ask of a repository's history, over any `RepoPort` of `ra_serve`.
//!
//! [`sets_up_to`] shares the sets that a history looks at, [`props_up_to`] and [`trees_up_to`] what a log tells beside
//! them. [`revisions_told`] has the revisions that a log tells, in its
//! direction and up to its limit, and [`location_of`] where a node stood in another revision. `path_history` says what
//! histories are; [`law`] has what holds of all logs.
#![tactic(auto)]

pub use place::{location_of, locations_of};
pub use range::{LogRange, revisions_told};
pub use rows::{props_up_to, trees_up_to};
pub use sets::sets_up_to;
pub use stop::SetsStop;

pub mod law;
mod place;
mod range;
mod rows;
mod sets;
mod stop;

//! The two ends of an editor: who shows a set of changes, and who makes a set of what it is shown.
//!
//! [`drive`] shows a revision's set of changes to an editor:
//!
//! ```text
//! let calls = drive(alloc, &trees, &set, Recorder::new(alloc))?;
//! ```
//!
//! Contract: where it answers Ok, the editor was shown exactly the calls that the set is driven as, whatever editor
//! it is.
//!
//! [`BuildEditor`] makes a set of changes of the calls that it is shown:
//!
//! ```text
//! let again = drive(alloc, &trees, &set, BuildEditor::new(alloc, &trees)?)?.into_set();
//! ```
//!
//! Contract: where the calls keep the nesting, the set has their effect. By [`law`] they come to no other.
#![tactic(auto)]

pub use build::{BuildEditor, Built, BuiltDir, BuiltFile};
pub use show::{drive, show_changes};

mod build;
mod building;
mod finish;
pub mod law;
mod parts;
mod plan;
mod progress;
mod props;
mod show;
mod text;

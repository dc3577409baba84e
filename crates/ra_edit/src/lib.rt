//! What Subversion's editor drives are over the wire: commands in items, and texts in windows.
//!
//! A revision is sent as commands of the ra_svn protocol, one for each call of an editor, and a text in it in
//! windows of svndiff version 0, as the crate `svndiff` takes and writes them; its modules stand here by their
//! names too.
//!
//! - [`wire::WireEditor`] is an editor that writes the calls that it is shown, in one spelling and with one reserved
//!   buffer.
//! - [`receive::receive`] shows an editor the calls that items spell, in any of the forms that are read.
//! - [`receive_deltas::receive_deltas`] takes texts as differences from those that an editor has.
//!
//! What is written for an edit is one of the forms that `specs/Edits.antt` takes, and is received as the same calls,
//! wherever in a stream it stands.
#![tactic(auto)]

mod command;
pub mod command_fault;
mod delta_edit;
pub mod edit_fault;
pub mod law;
mod name;
pub mod receive;
pub mod receive_command;
pub mod receive_deltas;
mod receive_edit;
mod receive_text;
pub mod shape_fault;
mod token;
pub mod wire;

pub use command::write_window_text;
pub use ra_item::stream;
pub use svndiff::{fault, reader, writer};

//! Texts in windows: version 0 of svndiff, with new data alone; and deltas of a base, version 0 in full.
//!
//! A text is four bytes, `SVN` and 0, and then windows, as the notes on svndiff in Subversion's sources have them.
//! Each window has five numbers in front (the place and length of its source, the length of its text, of its
//! instructions and of its new data), its instructions, and its new data. A text has no source, and no instruction
//! that copies. A delta's windows may see a part of the base, and copy from it and from what they have made.
//!
//! - [`reader::WindowReader`] takes windows cut anyhow, keeps their numbers alone and lends the text, stretch by
//!   stretch.
//! - [`delta_reader::DeltaReader`] takes deltas cut anyhow, keeps one window and lends the text, window by window.
//! - [`writer`] writes the one spelling of a text.
//!
//! What the grammar calls a text is read as that text and no other, what is read is in the grammar, and what is
//! written is read again. Deltas are read so too, and a text is a delta that copies nothing.
#![tactic(auto)]

mod delta;
pub mod delta_fault;
pub mod delta_law;
pub mod delta_reader;
pub mod fault;
mod instructions;
pub mod law;
pub mod limits;
pub mod reader;
mod reading;
mod window;
pub mod writer;

//! What Subversion's reading clients ask of a server, and what they are told, as items of the ra_svn protocol.
//!
//! [`url::SessionUrl`] is the URL that a session stands at. [`ask::BrowseCommand`] is what a client asks, and
//! [`report::ReportCommand`] what a working copy reports of itself behind `update`, `switch`, `status` and `diff`.
//! [`told`] writes what is answered beside the answers of `ra_wire`. The prototypes are those of the document
//! `protocol` of Subversion's library `libsvn_ra_svn`, with what older clients leave out; elements behind the last one
//! of a prototype are ignored.
//!
//! Which items are which is a table, `specs/Asks` for commands and `specs/Reports` for reports, and the clause `judged`
//! of each reader is on it; [`law`] has what holds of all items.
//!
//! ```text
//! let url = SessionUrl::parse(alloc, b"svn://127.0.0.1:3690/trunk")?;
//! let command = BrowseCommand::parse(alloc, item)?;    // ( stat ( 0: ( 10 ) ) )
//! write_stat(&mut out, &info)?;                        // ( success ( ( ( dir 0 true 10 ( ) ( ) ) ) ) )
//! ```
#![tactic(auto)]

pub mod ask;
pub mod depth;
pub mod fault;
mod fields;
pub mod law;
pub mod pieces;
pub mod report;
pub mod told;
pub mod url;

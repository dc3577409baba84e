//! Sessions of the ra_svn protocol: what a client and a server send each other, as items.
//!
//! [`command::Command`] is what a client asks, read from one item and written as one; [`opening`] has what the two say
//! at the beginning; [`reply::Reply`] is an answer, and [`answer`], [`props`], [`browse`] and [`dirent`] read what
//! stands in one. What goes out is written piece by piece, without making items in memory: [`reply_writer`] for a
//! server, [`command_writer`] for a client. The prototypes are those of the document `protocol` of Subversion's library
//! `libsvn_ra_svn`; elements behind the last one of a prototype are ignored.
//!
//! Which items are which is a table, `specs/Commands` for commands and `specs/Prototypes` for openings and answers, and
//! the clause `judged` of each reader is on it; [`law`] has what holds of all items and of every value.
//!
//! ```text
//! let command = Command::parse(alloc, item)?;          // ( check-path ( 1:a ( 3 ) ) )
//! write_authorised(&mut out)?;                         // ( success ( ( ) 0: ) )
//! write_kind(&mut out, Some(NodeKind::File))?;         // ( success ( file ) )
//! ```
#![tactic(auto)]

pub mod answer;
pub mod browse;
pub mod command;
pub mod command_writer;
pub mod dirent;
pub mod fault;
pub mod law;
pub mod opening;
pub mod params;
pub mod pieces;
pub mod props;
pub mod props_fault;
pub mod reply;
pub mod reply_writer;

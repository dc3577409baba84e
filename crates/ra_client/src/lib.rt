//! The client of a session: asks a server of the ra_svn protocol for what a mirror needs.
//!
//! [`ClientPort::open`] does the opening over any input and output; then [`ClientPort::latest`], [`ClientPort::fetch`]
//! and [`ClientPort::fetch_props`] each send one command and take its answer, item by item. An edit is built as it comes.
//! A [`DeltaPort`] is one whose server sends texts as differences.
//!
//! ```text
//! let mut port = ClientPort::open(alloc, b"svn://127.0.0.1:3690/", input, output)?;
//! let newest = port.latest()?;
//! let (set, props) = port.fetch(RevNo::new(1), trees.get(..1).unwrap_or(&[]))?;
//! ```
#![tactic(auto)]

pub use delta_port::DeltaPort;
pub use fault::ClientFault;
pub use port::ClientPort;
pub use take::{take_authorised, take_done, take_revprops, take_set};

mod answer;
mod ask;
mod delta_port;
mod fault;
mod master;
mod opening;
mod port;
mod take;

//! A server of so many connections on 127.0.0.1, a thread each, and the client's end of one.
//!
//! What goes over a connection is a [`Session`]'s matter. A peer that says nothing, or reads nothing, for longer than the
//! server's [`Limits`] allow ends its own session and no other, and so does one that resets its connection, or goes.
#![tactic(auto)]

pub use client::dial;
pub use fault::SocketFault;
pub use limits::{Limits, Peer};
pub use server::{Server, Session, serve};
pub use troubles::{Teller, Trouble, Troubles};

mod client;
mod drain;
mod fault;
mod limits;
mod server;
mod troubles;

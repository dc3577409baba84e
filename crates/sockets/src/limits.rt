//! How long a peer may be silent, and how many connections a server takes.

use std::time::Duration;

/// A server on this machine, and how long it may say nothing, and read nothing of what is written to it.
#[derive(Clone, Copy, Drop)]
pub struct Peer {
    /// Its port of 127.0.0.1.
    pub port: u16,
    /// How long each read and each write waits for it: more than nothing.
    pub patience: Duration,
}

/// What a server takes before it ends.
#[derive(Clone, Copy, Drop)]
pub struct Limits {
    /// The number of connections that it accepts.
    pub connections: u64,
    /// How long each read and each write of a session waits for its peer: more than nothing.
    pub patience: Duration,
}

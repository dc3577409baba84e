//! The client's end of a connection.

use crate::fault::SocketFault;
use crate::limits::Peer;
use std::net::{Ipv4Addr, Net, OpenStream, SocketAddr, SocketAddrV4, TcpStream};

/// Connects to a server's port of 127.0.0.1. PeerFailed (49) where nobody listens there, or the connection doesn't come
/// about within the server's time. A read or a write that waits longer than that fails. What is written goes out at
/// once, so write through a buffer.
pub fn dial<R: Net>(rt: &R, peer: Peer) -> Result<R::Stream, SocketFault> {
    let there = SocketAddr::V4(SocketAddrV4::new(Ipv4Addr::LOCALHOST, peer.port));
    let Ok(stream) = TcpStream::connect_timeout(rt, &there, peer.patience) else {
        return Err(SocketFault::PeerFailed);
    };
    if stream.set_nodelay(true).is_err()
        || stream.set_read_timeout(Some(peer.patience)).is_err()
        || stream.set_write_timeout(Some(peer.patience)).is_err()
    {
        return Err(SocketFault::PeerFailed);
    }
    Ok(stream)
}

//! The end of a connection.

use std::io::Read;
use std::net::{Shutdown, TcpStream};
use std::time::{Clock, Duration, Instant};

// Seconds that a read waits for what a peer still sends.
const WAIT_SECONDS: u64 = 1;

// Seconds that a peer may go on sending.
const MOST_SECONDS: u64 = 2;

// Bytes of one read.
const PIECE: usize = 4096;

// The most reads, so that at most 1 MiB is read.
const READS: u32 = 256;

/// Ends a connection so that its peer can read all that was written: nothing more is written, and what the peer still
/// sends is read to its end, for some two seconds and up to 1 MiB. A connection that is closed while bytes of the peer
/// are unread is reset, and a reset takes from the peer what it hasn't read yet.
pub(crate) fn drain<R: Clock>(rt: &R, stream: &TcpStream) {
    let wait = Duration::from_secs(WAIT_SECONDS);
    if stream.shutdown(Shutdown::Write).is_err() || stream.set_read_timeout(Some(wait)).is_err() {
        return;
    }
    let Ok(begun) = Instant::now(rt) else {
        return;
    };
    let mut input = stream;
    let mut piece = [0u8; PIECE];
    for _ in 0..READS {
        let Ok(read) = input.read(&mut piece) else {
            return;
        };
        if read == 0 || !goes_on(rt, &begun) {
            return;
        }
    }
}

// Whether a peer that began then may go on.
fn goes_on<R: Clock>(rt: &R, begun: &Instant) -> bool {
    match begun.elapsed(rt) {
        Ok(passed) => passed.as_secs() < MOST_SECONDS,
        Err(_) => false,
    }
}

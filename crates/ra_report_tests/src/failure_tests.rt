//! Writers that fail.

use crate::reports::{Case, answered};
use crate::site::site;
use ra_serve::{RepoPort, ServeFault};
use std::alloc::Global;
use std::io;
use std::io::{ErrorKind, Write};
use std::rt::HostRuntime;

/// A writer that takes so many bytes, and that nobody may flush.
#[derive(Drop)]
struct Room {
    left: usize,
}

impl Write for Room {
    fn write(&mut self, buf: &[u8]) -> io::Result<usize> {
        if self.left == 0 {
            return Err(io::Error::from(ErrorKind::BrokenPipe));
        }
        let n = buf.len().min(self.left);
        self.left -= n;
        Ok(n)
    }

    fn flush(&mut self) -> io::Result<()> {
        Err(io::Error::from(ErrorKind::BrokenPipe))
    }
}

const CHECKOUT: Case<'static> = Case {
    url: b"svn://h/tags",
    asked: b"( update ( ( 3 ) 0: true ) )",
    reported: b"( set-path ( 0: 3 true ) ) ",
};

// How much room the answer takes; none where less ends it otherwise than by the writer.
fn room_wanted<P: RepoPort>(alloc: Global, port: &mut P) -> Option<usize> {
    for left in 0..1_000 {
        match answered(alloc, port, &CHECKOUT, Room { left }) {
            Ok((_out, sent)) => return if sent { Some(left) } else { None },
            Err(ServeFault::WriteFailed) => {}
            Err(_) => return None,
        }
    }
    None
}

fn len_of<P: RepoPort>(alloc: Global, port: &mut P) -> Option<usize> {
    match answered(alloc, port, &CHECKOUT, Vec::new(alloc)) {
        Ok((told, _sent)) => Some(told.len()),
        Err(_) => None,
    }
}

#[test]
fn a_writer_that_fails_is_told(rt: HostRuntime) {
    let alloc = rt.alloc();
    let mut port = site(alloc).expect(&rt, "memory");
    let wanted = room_wanted(alloc, &mut port);
    assert!(rt; wanted.is_some() && wanted == len_of(alloc, &mut port));
}

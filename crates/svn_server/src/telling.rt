//! Trouble of a server that goes on, on standard error.
ghost use Rattle.std.specs.Prelude.{◌≡◌};
ghost use Rattle.svn_server.specs.Serving.{refusal_of};

use byte_streams::CountedWriter;
use fleet_engines::write_line;
use node_base::Refusal;
use sockets::{Teller, Trouble};

/// Tells trouble on the standard error of this process, by the line of its refusal.
#[derive(Drop)]
pub struct HostTeller<'a> {
    rt: &'a HostRuntime,
}

impl<'a> HostTeller<'a> {
    /// One of this process.
    pub fn new(rt: &'a HostRuntime) -> HostTeller<'a> {
        HostTeller { rt }
    }
}

impl<'a> Teller for HostTeller<'a> {
    /// A line that can't be written is lost.
    fn tell(&self, trouble: Trouble) {
        let mut errors = CountedWriter::new(self.rt.stderr());
        let _ = write_line(&mut errors, &refusal_of(trouble));
    }
}

// The refusal that trouble is.
fn refusal_of(trouble: Trouble) -> Refusal
    ensures { result ≡ refusal_of trouble }
{
    match trouble {
        Trouble::DeviceFailed => Refusal::DeviceFailed,
        Trouble::Failed => Refusal::Failed,
        Trouble::LogFull => Refusal::LogFull,
        Trouble::PeerFailed => Refusal::PeerFailed,
        Trouble::OutOfMemory => Refusal::OutOfMemory,
    }
}

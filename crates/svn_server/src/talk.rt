//! What goes over a connection.

ghost use Rattle.std.specs.Prelude.{◌≡◌, true, IfOk, string_bytes};
ghost use Rattle.svn_ends.specs.Ports.{takes_none};
ghost use Rattle.svn_server.specs.Ends.{fault_of, heard, root_of, trouble_of, url, BeginsWell};

use crate::server::Address;
use byte_streams::{CountedReader, CountedWriter};
use ra_item::stream::ItemStream;
use ra_reader::browse_to;
use ra_serve::{ClientItems, End, PortFault, ServeFault, serve};
use sockets::{Session, SocketFault, Teller, Trouble, Troubles};
use std::alloc::{AllocError, Global};
use std::io::{Read, Write};
use std::marker::PhantomData;
use std::sync::Wait;
use std::time::Clock;
use store_share::RowName;
use svn_ends::{ServedShare, SharePort};

/// The sessions over one share, each with a port and a seat of its own. Clients are told the root of the address. Trouble
/// of the device and want of memory are told; that a peer fails isn't.
#[derive(Drop)]
pub(crate) struct ShareSessions<'a, R: Wait + Clock, L: RowName, S: ServedShare<L>, T: Teller> {
    pub(crate) of: PhantomData<L>,
    pub(crate) rt: &'a R,
    pub(crate) alloc: Global,
    pub(crate) share: &'a S,
    pub(crate) mirror: bool,
    pub(crate) address: &'a Address<'a>,
    pub(crate) root_url: &'a [u8],
    pub(crate) troubles: Troubles<'a, T>,
    ghost root: { root_url.now ≡ root_of address.now },
}

impl<'a, R: Wait + Clock, L: RowName, S: ServedShare<L>, T: Teller> ShareSessions<'a, R, L, S, T> {
    // The port of one session.
    fn port(&self) -> Result<SharePort<'a, R, L, S>, AllocError>
        ensures { IfOk result (λ p. takes_none p ≡ self.now.mirror) }
    {
        SharePort::new(self.rt, self.alloc, self.share, self.mirror)
    }

    // Serves one session over the port, as the address says.
    fn serve_over<I: Read + Drop, W: Write + Drop>(
        &self,
        port: &mut SharePort<'a, R, L, S>,
        input: I,
        output: W,
    ) -> Result<(W, End), ServeFault>
        ensures { IfOk result (λ r. BeginsWell self.now.address.now.browse (W.contents output) (W.contents r.0)) }
    {
        if self.address.browse {
            return self.browse_over(port, input, output);
        }
        let mut items = ClientItems::new(self.alloc, CountedReader::new(input));
        let out = CountedWriter::new(output);
        match serve(self.alloc, port, self.root_url, &mut items, out) {
            Ok((out, end)) => Ok((out.into_inner(), end)),
            Err(unserved) => Err(unserved.fault),
        }
    }

    // The same of a client that may browse.
    fn browse_over<I: Read + Drop, W: Write + Drop>(
        &self,
        port: &mut SharePort<'a, R, L, S>,
        input: I,
        output: W,
    ) -> Result<(W, End), ServeFault>
        ensures { IfOk result (λ r. BeginsWell true (W.contents output) (W.contents r.0)) }
    {
        let mut items = ItemStream::new(self.alloc, CountedReader::new(input));
        let out = CountedWriter::new(output);
        match browse_to(self.alloc, port, &mut items, out) {
            Ok((out, end)) => Ok((out.into_inner(), end)),
            Err(unserved) => Err(unserved.fault),
        }
    }

    // Tells a refusal that was a port's own, where there was one.
    fn tell_refusal(&self, refusal: Option<PortFault>) {
        if let Some(fault) = refusal {
            if let Some(trouble) = trouble_of(fault) {
                self.troubles.tell(self.rt, trouble);
            }
        }
    }
}

impl<R: Wait + Clock, L: RowName, S: ServedShare<L>, T: Teller> Session
    for ShareSessions<'_, R, L, S, T> {
    // What clients are told behind the greeting no clause says: a port over a share doesn't know its repository.
    ghost has_talked = { λ sessions connection before behind. BeginsWell sessions.address.now.browse before behind };

    /// Answers the commands of one client up to its end. PeerFailed (49) where a stream fails or what the client sends
    /// isn't items, OutOfMemory (70).
    fn talk<I: Read + Drop, W: Write + Drop>(
        &self,
        _connection: u64,
        input: I,
        output: W,
    ) -> Result<W, SocketFault> {
        let Ok(mut port) = self.port() else {
            return Err(SocketFault::OutOfMemory);
        };
        let served = self.serve_over(&mut port, input, output);
        self.tell_refusal(port.first_refusal());
        match served {
            Ok((output, end)) => match heard(end) {
                Ok(()) => Ok(output),
                Err(fault) => Err(fault),
            },
            Err(fault) => Err(fault_of(fault)),
        }
    }

    /// A session that ends badly ends itself alone: it is told where memory ran out.
    fn ended(&self, _connection: u64, answer: Result<(), SocketFault>) {
        if let Err(SocketFault::OutOfMemory) = answer {
            self.troubles.tell(self.rt, Trouble::OutOfMemory);
        }
    }

    /// It is told.
    fn unaccepted(&self, fault: SocketFault) {
        match fault {
            SocketFault::PeerFailed => self.troubles.tell(self.rt, Trouble::PeerFailed),
            SocketFault::OutOfMemory => self.troubles.tell(self.rt, Trouble::OutOfMemory),
        }
    }
}

// The trouble that a refusal of a port is, where it is the port's own.
fn trouble_of(fault: PortFault) -> Option<Trouble>
    ensures { result ≡ trouble_of fault }
{
    match fault {
        PortFault::TooLong | PortFault::NoSuchRevision | PortFault::BaseMismatch => None,
        PortFault::DeviceFailed => Some(Trouble::DeviceFailed),
        PortFault::Failed => Some(Trouble::Failed),
        PortFault::LogFull => Some(Trouble::LogFull),
        PortFault::OutOfMemory => Some(Trouble::OutOfMemory),
    }
}

// What a server hears of the end of a session.
fn heard(end: End) -> Result<(), SocketFault>
    ensures { result ≡ heard end }
{
    match end {
        End::Input | End::Opening => Ok(()),
        End::Items(_) => Err(SocketFault::PeerFailed),
    }
}

// What it hears of a session that was given up.
fn fault_of(fault: ServeFault) -> SocketFault
    ensures { result ≡ fault_of fault }
{
    match fault {
        ServeFault::ReadFailed | ServeFault::WriteFailed => SocketFault::PeerFailed,
        ServeFault::OutOfMemory => SocketFault::OutOfMemory,
    }
}

/// The root that clients are told: the one that is given, or else that of the port.
pub(crate) fn root_url(alloc: Global, address: &Address<'_>) -> Result<String, AllocError>
    ensures { IfOk result (λ s. string_bytes s ≡ root_of address.now) }
{
    match address.root_url {
        Some(root) => String::from_str(alloc, root),
        None => url_of(alloc, address.port),
    }
}

// The root that is served on a port.
fn url_of(alloc: Global, port: u16) -> Result<String, AllocError>
    ensures { IfOk result (λ s. string_bytes s ≡ url port) }
{
    format!(in alloc; "svn://127.0.0.1:{port}/")
}

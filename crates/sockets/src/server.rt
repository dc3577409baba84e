//! The server.
ghost use Rattle.std.specs.Prelude.{◌≡◌, ℕ, List, Option, IfErr, IfOk, OnOk, string_bytes};
ghost use Rattle.std.specs.Io.KnownBytes.{Appends};
ghost use Rattle.sockets.specs.Lines.{listening};
ghost use Rattle.sockets.specs.Talks.{HasTalked};
ghost use Rattle.sockets.specs.declared.fault.SocketFault.TheVariants as socket;

use crate::drain::drain;
use crate::fault::SocketFault;
use crate::limits::Limits;
use std::alloc::Global;
use std::io::{BufWriter, Error, ErrorKind, Read, Write};
use std::net::{Ipv4Addr, Net, SocketAddr, SocketAddrV4, TcpListener, TcpStream};
use std::sync::Wait;
use std::thread;
use std::thread::Threads;
use std::time::{Clock, Duration};

/// What talks over one connection.
pub trait Session {
    /// It has talked over the connection of that number, up to its end: what the output held before, where that is known,
    /// and what it holds then.
    ghost has_talked: { Self → ℕ → Option (List ℕ) → Option (List ℕ) → Type 0 };

    /// Talks until the input ends, or there is nothing more to say, and gives the output back. What it writes is kept
    /// back until it flushes, so it flushes before it waits for input, and at its end.
    fn talk<R: Read + Drop, W: Write + Drop>(
        &self,
        connection: u64,
        input: R,
        output: W,
    ) -> Result<W, SocketFault>
        ensures { IfOk result (λ w. has_talked self.now connection (W.contents output) (W.contents w)) };

    /// Hears, once for each connection, how its session ended: well only where it has talked. Connections are counted
    /// from 0 up.
    fn ended(&self, connection: u64, answer: Result<(), SocketFault>)
        requires { OnOk answer (HasTalked (has_talked self.now connection)) };

    /// Hears that no connection could be accepted. It counts for none: the server tries again.
    fn unaccepted(&self, fault: SocketFault);
}

/// Bytes that a connection's writer keeps back before they go out: 64 KiB.
const ROOM: usize = 65_536;

/// Milliseconds that a server waits after it couldn't accept a connection, as where the process has too many open files.
const PAUSE_MILLIS: u64 = 100;

// Sets how long reads and writes of a connection wait, and that what is written goes out at once.
fn prepared(stream: &TcpStream, patience: Duration) -> bool {
    stream.set_nodelay(true).is_ok()
        && stream.set_read_timeout(Some(patience)).is_ok()
        && stream.set_write_timeout(Some(patience)).is_ok()
}

fn talk_over<S: Session>(
    session: &S,
    alloc: Global,
    connection: u64,
    patience: Duration,
    stream: &TcpStream,
) -> Result<(), SocketFault>
    ensures { OnOk result (HasTalked (S.has_talked session.now connection)) }
{
    if !prepared(stream, patience) {
        return Err(SocketFault::PeerFailed);
    }
    match BufWriter::with_capacity(alloc, ROOM, stream) {
        Ok(output) => match session.talk(connection, stream, output) {
            Ok(_output) => Ok(()),
            Err(fault) => Err(fault),
        },
        Err(_) => Err(SocketFault::OutOfMemory),
    }
}

fn run_session<R: Clock, S: Session>(
    rt: &R,
    session: &S,
    alloc: Global,
    connection: u64,
    patience: Duration,
    stream: &TcpStream,
) {
    let answer = talk_over(session, alloc, connection, patience, stream);
    session.ended(connection, answer);
    drain(rt, stream);
}

// Tells a session why no connection could be accepted. That a peer went away before is no trouble.
fn tell_unaccepted<S: Session>(session: &S, error: &Error) {
    match error.kind() {
        ErrorKind::ConnectionAborted => {}
        ErrorKind::OutOfMemory => session.unaccepted(SocketFault::OutOfMemory),
        _ => session.unaccepted(SocketFault::PeerFailed),
    }
}

// The next connection. Where none can be accepted it waits a while, in which a session may end, and tries again.
fn accepted<R: Wait + Clock, S: Session>(rt: &R, listener: &TcpListener, session: &S) -> TcpStream {
    for _ in rt.forever() {
        match listener.accept() {
            Ok((stream, _)) => return stream,
            Err(error) => {
                tell_unaccepted(session, &error);
                thread::sleep(rt, Duration::from_millis(PAUSE_MILLIS));
            }
        }
    }
    unreachable!()
}

/// A port of 127.0.0.1 on which connections are accepted.
#[derive(Drop)]
pub struct Server {
    listener: TcpListener,
    port: u16,
}

impl Server {
    ghost use Rattle.sockets.specs.Servers.{port_of};

    /// Listens on that port of 127.0.0.1; on one that is free where it is 0. PeerFailed (49) where it can't.
    pub fn bind<R: Net<Listener = TcpListener, Stream = TcpStream>>(
        rt: &R,
        port: u16,
    ) -> Result<Server, SocketFault>
        ensures { IfErr result (λ f. f ≡ socket.PeerFailed) }
    {
        let here = SocketAddr::V4(SocketAddrV4::new(Ipv4Addr::LOCALHOST, port));
        let Ok(listener) = TcpListener::bind(rt, here) else {
            return Err(SocketFault::PeerFailed);
        };
        match listener.local_addr() {
            Ok(bound) => Ok(Server {
                listener,
                port: bound.port(),
            }),
            Err(_) => Err(SocketFault::PeerFailed),
        }
    }

    /// The port.
    pub fn port(&self) -> u16
        ensures { result ≡ port_of self.now }
    {
        self.port
    }

    /// Accepts so many connections and talks over each in a thread of its own; returns once all have ended. One that
    /// can't be accepted is none, whoever waits for it stays in the queue, and it is tried again; one that gets no
    /// thread (70) counts: its session ends so. A peer that says nothing, or reads nothing, for so long ends its session
    /// (49). Behind the last connection the port is let go, so that whoever comes later is refused at once.
    pub fn run<R: Threads + Wait + Clock + Sync, S: Session + Sync>(
        self,
        rt: &R,
        alloc: Global,
        limits: Limits,
        session: &S,
    ) {
        let Server { listener, port: _ } = self;
        let Limits {
            connections,
            patience,
        } = limits;
        thread::scope(thread::scope_env(), rt, move |scope| {
            for connection in 0..connections {
                let stream = accepted(rt, &listener, session);
                let started = scope.spawn(move || {
                    run_session(rt, session, alloc, connection, patience, &stream)
                });
                if started.is_err() {
                    session.ended(connection, Err(SocketFault::OutOfMemory));
                }
            }
            drop(listener);
        });
    }
}

/// Writes where it listens, and sends it out.
fn announce<W: Write>(output: &mut W, line: &String) -> Result<(), SocketFault>
    ensures { OnOk result (Appends (W.contents output.old) (W.contents output.new) (string_bytes line.now)) }
{
    if output.write_all(line.as_bytes()).is_err() || output.flush().is_err() {
        return Err(SocketFault::PeerFailed);
    }
    Ok(())
}

/// Listens, says where in a line, and serves so many connections. Refused only where it can't listen or can't say so.
pub fn serve<
    R: Net<Listener = TcpListener, Stream = TcpStream> + Threads + Wait + Clock + Sync,
    S: Session + Sync,
    W: Write,
>(
    rt: &R,
    alloc: Global,
    port: u16,
    limits: Limits,
    session: &S,
    output: &mut W,
) -> Result<(), SocketFault>
    ensures { OnOk result (Appends (W.contents output.old) (W.contents output.new) (listening port)) }
{
    let server = Server::bind(rt, port)?;
    let Ok(line) = format!(in alloc; "listening on 127.0.0.1:{port}\n") else {
        return Err(SocketFault::OutOfMemory);
    };
    announce(output, &line)?;
    server.run(rt, alloc, limits, session);
    Ok(())
}

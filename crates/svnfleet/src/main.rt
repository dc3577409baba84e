//! svnfleet: lists and rewrites the dumps of Subversion repositories, keeps repositories and mirrors of them in folders,
//! and serves these to Subversion's clients.
#![tactic(auto)]

use fleet_disk::{HeldFiles, StdFolders};
use fleet_main::{
    Command, CountedReader, CountedWriter, Fleet, HostDescriptors, HostFolders, Planned, Pull,
    Service, Usage, fill_streams, fleet, plan, pull, run,
};
use std::io::{BufWriter, ErrorKind};
use std::net::{Net, TcpListener, TcpStream};
use std::process::ExitCode;
use std::sync::Wait;
use std::thread::Threads;
use std::time::Clock;
use std::{env, io};
use svn_server::{HostTeller, serve};

// What is left to do.
#[derive(Drop)]
enum Left {
    // Nothing: the status.
    Status(u8),
    // To serve, which starts threads and waits.
    Serve(Service),
    // To bring mirrors up, which does too.
    Fleet(Fleet),
}

fn main(rt: HostRuntime) -> ExitCode {
    match asked(&rt) {
        Left::Status(status) => ExitCode::from(status),
        Left::Serve(service) => ExitCode::from(served(&rt, &rt, &service)),
        Left::Fleet(asked) => ExitCode::from(brought(&rt, &rt, &asked)),
    }
}

// The words that the program was given, its name first.
fn words(rt: &HostRuntime) -> io::Result<Vec<String>> {
    let mut words = Vec::new(rt.alloc());
    for word in env::args(rt)? {
        words.push(word)?;
    }
    Ok(words)
}

// Tells a line on standard error, where it can be told, and gives the status.
fn told(rt: &HostRuntime, line: &str, status: u8) -> u8 {
    let _ = rt.eprintln(line);
    status
}

// No file is opened before the standard streams are there.
fn asked(rt: &HostRuntime) -> Left {
    match fill_streams(&mut HostDescriptors::new(rt)) {
        Ok(()) => worded(rt),
        Err(error) => {
            if error.kind() == ErrorKind::OutOfMemory {
                return Left::Status(told(rt, "svnfleet: 70 out of memory", 1));
            }
            Left::Status(told(rt, "svnfleet: 31 device failed", 1))
        }
    }
}

fn worded(rt: &HostRuntime) -> Left {
    match words(rt) {
        Ok(words) => planned(rt, &words),
        Err(error) => {
            if error.kind() == ErrorKind::OutOfMemory {
                return Left::Status(told(rt, "svnfleet: 70 out of memory", 1));
            }
            Left::Status(told(
                rt,
                "svnfleet: a word is not UTF-8 (svnfleet --help tells more)",
                2,
            ))
        }
    }
}

fn planned(rt: &HostRuntime, words: &[String]) -> Left {
    match plan(rt.alloc(), words) {
        Ok(Planned::Run(command)) => Left::Status(ran(rt, rt, command)),
        Ok(Planned::Pull(asked)) => Left::Status(pulled(rt, rt, asked)),
        Ok(Planned::Serve(service)) => Left::Serve(service),
        Ok(Planned::Fleet(asked)) => Left::Fleet(asked),
        Err(usage) => Left::Status(used(rt, &usage)),
    }
}

// Shows help, or tells what is wrong with the words.
fn used(rt: &HostRuntime, usage: &Usage) -> u8 {
    match usage {
        Usage::Shown(text) => match rt.print(text) {
            Ok(()) => 0,
            Err(_) => told(rt, "svnfleet: 49 stream failed", 1),
        },
        Usage::Wrong(text) => told(rt, text.as_str(), 2),
        Usage::OutOfMemory => told(rt, "svnfleet: 70 out of memory", 1),
    }
}

// By the files of a handle.
fn ran<R: HeldFiles>(rt: &HostRuntime, files: &R, command: Command) -> u8 {
    let Ok(buffer) = BufWriter::with_capacity(rt.alloc(), 65_536, rt.stdout()) else {
        return told(rt, "svnfleet: 70 out of memory", 1);
    };
    let mut input = CountedReader::new(rt.stdin());
    let mut errors = CountedWriter::new(rt.stderr());
    let (status, _output) = run(
        rt.alloc(),
        &mut HostFolders::new(StdFolders::new(files)),
        command,
        &mut input,
        CountedWriter::new(buffer),
        &mut errors,
    );
    status
}

// By the files and sockets of a handle.
fn pulled<R: HeldFiles + Net<Stream = TcpStream>>(rt: &HostRuntime, handle: &R, asked: Pull) -> u8 {
    let Ok(buffer) = BufWriter::with_capacity(rt.alloc(), 65_536, rt.stdout()) else {
        return told(rt, "svnfleet: 70 out of memory", 1);
    };
    let mut errors = CountedWriter::new(rt.stderr());
    let (status, _output) = pull(
        handle,
        rt.alloc(),
        &mut HostFolders::new(StdFolders::new(handle)),
        asked,
        CountedWriter::new(buffer),
        &mut errors,
    );
    status
}

// By the files, threads and sockets of a handle.
fn served<
    R: HeldFiles + Net<Listener = TcpListener, Stream = TcpStream> + Threads + Wait + Clock + Sync,
>(rt: &HostRuntime, handle: &R, service: &Service) -> u8
where
    R::File: Send,
{
    let mut errors = CountedWriter::new(rt.stderr());
    let (status, _output) = serve(
        handle,
        rt.alloc(),
        &mut HostFolders::new(StdFolders::new(handle)),
        service,
        &HostTeller::new(rt),
        CountedWriter::new(rt.stdout()),
        &mut errors,
    );
    status
}

// By the files and threads of a handle.
fn brought<R: HeldFiles + Threads + Wait + Clone + Send + Drop + 'static>(
    rt: &HostRuntime,
    handle: &R,
    asked: &Fleet,
) -> u8
where
    R::File: Send + 'static,
{
    let mut errors = CountedWriter::new(rt.stderr());
    let (status, _output) = fleet(
        handle,
        rt.alloc(),
        &mut HostFolders::new(StdFolders::new(handle)),
        asked,
        CountedWriter::new(rt.stdout()),
        &mut errors,
    );
    status
}

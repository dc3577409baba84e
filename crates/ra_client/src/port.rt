//! A client's session with a server.

ghost use Rattle.std.specs.Prelude.{◌≡◌, length, IfOk};
ghost use Rattle.dump_load.specs.Trees.{Makes};
ghost use Rattle.ra_client.specs.Faults.{over_after, over_by};

use crate::ask::{ask_deltas, ask_latest, ask_props, ask_revision};
use crate::fault::ClientFault;
use crate::opening::introduce;
use byte_streams::{Input, Output, Sink};
use dump_load::Applied;
use node_base::{Props, RevNo};
use path_tree::Tree;
use ra_edit::law::{written_comes, written_is_taken};
use ra_item::stream::ItemStream;
use std::alloc::Global;
use uuid::Uuid;

/// A session with a server behind its opening.
///
/// Each call sends one command and takes its answer, no item more. Behind a refusal that is no answer of the server
/// nothing is known of where the next answer begins: each later call is refused for the same, and neither reads nor
/// writes.
///
/// Where what a server tells is to come, whatever stands behind it, a call takes exactly that, and only want of memory or
/// a stream that failed refuses it: the clauses `told`, for which the laws of what is written are called.
#[derive(Drop)]
pub struct ClientPort<I: Input + Drop, O: Output + Drop> {
    items: ItemStream<I>,
    out: Sink<O>,
    identity: Uuid,
    root_url: Vec<u8>,
    // Why nothing is asked any more.
    over: Option<ClientFault>,
    alloc: Global,
}

impl<I: Input + Drop, O: Output + Drop> ClientPort<I, O> {
    ghost use Rattle.ra_client.specs.Exchanges.{AsksDeltas, AsksLatest, AsksProps, AsksRevision};
    ghost use Rattle.ra_client.specs.Ports.{repository_of, output_of, Calls, TellsPeerAnew, IsOpening};
    ghost use Rattle.ra_client.specs.Telling.{HearsNumber, HearsProps, HearsRevision};

    /// Does the opening with a server of version 2, asks for that URL, and says that the client is nobody where the
    /// server asks who it is.
    ///
    /// `BadAnswer` where the server speaks no version 2, takes no anonymous client, has no identity, or answers in
    /// another form; `Refused` where it refuses; `Edit` with the number of a fault of items, 49 only where the input
    /// or the output failed, or 70.
    pub fn open(
        alloc: Global,
        url: &[u8],
        input: I,
        output: O,
    ) -> Result<ClientPort<I, O>, ClientFault>
        ensures opened { IsOpening url.now input output result }
    {
        let mut items = ItemStream::new(alloc, input);
        let mut out = Sink::new(output);
        match introduce(alloc, url, &mut items, &mut out) {
            Ok(found) => Ok(ClientPort {
                items,
                out,
                identity: found.identity,
                root_url: found.root_url,
                over: None,
                alloc,
            }),
            Err(fault) => Err(fault),
        }
    }

    /// The repository's identity.
    pub fn identity(&self) -> &Uuid
        ensures { result.now ≡ (repository_of self.now).identity }
    {
        &self.identity
    }

    /// The URL by which the server says that it is reached.
    pub fn root_url(&self) -> &[u8]
        ensures { result.now ≡ (repository_of self.now).url }
    {
        self.root_url.as_slice()
    }

    /// The newest revision.
    pub fn latest(&mut self) -> Result<RevNo, ClientFault>
        ensures call { Calls AsksLatest self.old self.new result }
        ensures told { HearsNumber self.old self.new result }
        ensures peer { TellsPeerAnew self.old self.new result }
    {
        if let Some(fault) = self.over {
            return Err(fault);
        }
        written_is_taken();
        written_comes();
        let answer = ask_latest(self.alloc, &mut self.items, &mut self.out);
        self.over = over_after(&answer);
        answer
    }

    /// The set of changes that makes a revision from the trees before it, with the tree that it makes, and its
    /// properties.
    pub fn fetch(&mut self, number: RevNo, trees: &[Tree]) -> Result<(Applied, Props), ClientFault>
        requires before { length trees.now ≡ number }
        ensures call { Calls (AsksRevision number trees.now) self.old self.new result }
        ensures makes { IfOk result (λ r. Makes trees.now r.0.set r.0.tree) }
        ensures told { HearsRevision trees.now self.old self.new result }
        ensures peer { TellsPeerAnew self.old self.new result }
    {
        if let Some(fault) = self.over {
            return Err(fault);
        }
        written_is_taken();
        written_comes();
        let answer = ask_revision(self.alloc, &mut self.items, &mut self.out, number, trees);
        self.over = over_after(&answer);
        answer
    }

    /// What [`ClientPort::fetch`] gives, where the revision's texts come as differences.
    pub fn fetch_deltas(
        &mut self,
        number: RevNo,
        trees: &[Tree],
    ) -> Result<(Applied, Props), ClientFault>
        requires before { length trees.now ≡ number }
        ensures call { Calls (AsksDeltas number trees.now) self.old self.new result }
        ensures makes { IfOk result (λ r. Makes trees.now r.0.set r.0.tree) }
        ensures peer { TellsPeerAnew self.old self.new result }
    {
        if let Some(fault) = self.over {
            return Err(fault);
        }
        let answer = ask_deltas(self.alloc, &mut self.items, &mut self.out, number, trees);
        self.over = over_after(&answer);
        answer
    }

    /// The properties of a revision.
    pub fn fetch_props(&mut self, number: RevNo) -> Result<Props, ClientFault>
        ensures call { Calls (AsksProps number) self.old self.new result }
        ensures told { HearsProps self.old self.new result }
        ensures peer { TellsPeerAnew self.old self.new result }
    {
        if let Some(fault) = self.over {
            return Err(fault);
        }
        written_is_taken();
        written_comes();
        let answer = ask_props(self.alloc, &mut self.items, &mut self.out, number);
        self.over = over_after(&answer);
        answer
    }

    /// The output.
    pub fn into_output(self) -> O
        ensures { result ≡ output_of self }
    {
        self.out.into_inner()
    }
}

// What nothing is asked for any more behind an answer: a refusal that is none of the server's.
fn over_after<T>(answer: &Result<T, ClientFault>) -> Option<ClientFault>
    ensures { result ≡ over_after answer.now }
{
    match answer {
        Ok(_) => None,
        Err(fault) => over_by(*fault),
    }
}

// The same of a refusal.
fn over_by(fault: ClientFault) -> Option<ClientFault>
    ensures { result ≡ over_by fault }
{
    if fault.is_answer() { None } else { Some(fault) }
}

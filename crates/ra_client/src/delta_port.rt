//! A server as the master of a mirror, whose texts come as differences.

ghost use Rattle.std.specs.Prelude.{◌≡◌};

use crate::fault::ClientFault;
use crate::master::identity_text;
use crate::port::ClientPort;
use byte_streams::{Input, Output};
use dump_load::Applied;
use node_base::{PropValue, Props, Refusal, RevNo};
use path_tree::Tree;
use std::alloc::Global;
use sync_job::{Fetched, MasterFault, MasterPort};

/// A session with a server that sends texts as differences, as Subversion's own does: a [`ClientPort`] that takes them.
/// What a job is answered is what the session's calls answer, whoever the server is.
#[derive(Drop)]
pub struct DeltaPort<I: Input + Drop, O: Output + Drop> {
    port: ClientPort<I, O>,
}

impl<I: Input + Drop, O: Output + Drop> DeltaPort<I, O> {
    ghost use Rattle.ra_client.specs.Deltas.{IsDeltaOpening};

    /// Does the opening, and is refused, as [`ClientPort::open`].
    pub fn open(
        alloc: Global,
        url: &[u8],
        input: I,
        output: O,
    ) -> Result<DeltaPort<I, O>, ClientFault>
        ensures opened { IsDeltaOpening url.now input output result }
    {
        match ClientPort::open(alloc, url, input, output) {
            Ok(port) => Ok(DeltaPort { port }),
            Err(fault) => Err(fault),
        }
    }
}

impl<I: Input + Drop, O: Output + Drop> MasterPort for DeltaPort<I, O> {
    ghost use Rattle.std.proofs.Common.{refl};
    ghost use Rattle.ra_client.specs.Deltas.{deltas_answered_by};

    // An input says what its bytes are, and not who sends them: nothing is said of the master that a server has.
    ghost is_at = { λ port origin. ⊥ };

    // What it answers is what its session's calls answer.
    ghost answered = { λ now first made. deltas_answered_by now first made };

    ghost unasked = { λ _. refl };

    fn identity(&mut self, alloc: Global) -> Result<PropValue, MasterFault> {
        match identity_text(alloc, ClientPort::identity(&self.port)) {
            Ok(text) => Ok(text),
            Err(_) => Err(MasterFault::Refused(Refusal::OutOfMemory)),
        }
    }

    fn latest(&mut self, _alloc: Global) -> Result<RevNo, MasterFault> {
        match ClientPort::latest(&mut self.port) {
            Ok(number) => Ok(number),
            Err(fault) => Err(MasterFault::from(fault)),
        }
    }

    fn fetch(
        &mut self,
        _alloc: Global,
        number: RevNo,
        trees: &[Tree],
    ) -> Result<Fetched, MasterFault> {
        if trees.len() != number.index() {
            return Err(MasterFault::Refused(Refusal::WrongNumber));
        }
        match ClientPort::fetch_deltas(&mut self.port, number, trees) {
            Ok((Applied { set, tree }, props)) => Ok(Fetched {
                set,
                tree: Some(tree),
                props,
            }),
            Err(fault) => Err(MasterFault::from(fault)),
        }
    }

    fn fetch_props(&mut self, _alloc: Global, number: RevNo) -> Result<Props, MasterFault> {
        match ClientPort::fetch_props(&mut self.port, number) {
            Ok(props) => Ok(props),
            Err(fault) => Err(MasterFault::from(fault)),
        }
    }
}

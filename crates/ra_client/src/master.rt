//! A server as the master of a mirror.

ghost use Rattle.std.specs.Prelude.{◌≡◌, IfOk};
ghost use Rattle.uuid.specs.Text.{hyphenated_text, lower};
ghost use Rattle.ra_client.specs.Masters.{of_edit, of_editor};

use crate::fault::ClientFault;
use crate::port::ClientPort;
use byte_streams::{Input, Output};
use delta_editor::EditorFault;
use dump_load::Applied;
use node_base::{PropValue, Props, Refusal, RevNo};
use path_tree::Tree;
use ra_edit::edit_fault::EditFault;
use std::alloc::{AllocError, Global};
use sync_job::{Fetched, MasterFault, MasterPort};
use uuid::Uuid;

impl<I: Input + Drop, O: Output + Drop> MasterPort for ClientPort<I, O> {
    ghost use Rattle.std.proofs.Common.{refl};
    ghost use Rattle.ra_client.specs.Masters.{answered_by};

    // An input says what its bytes are, and not who sends them: nothing is said of the master that a server has.
    ghost is_at = { λ port origin. ⊥ };

    // What it answers is what its bytes are.
    ghost answered = { λ now first made. answered_by now first made };

    ghost unasked = { λ _. refl };

    fn identity(&mut self, alloc: Global) -> Result<PropValue, MasterFault> {
        match identity_text(alloc, ClientPort::identity(self)) {
            Ok(text) => Ok(text),
            Err(_) => Err(MasterFault::Refused(Refusal::OutOfMemory)),
        }
    }

    fn latest(&mut self, _alloc: Global) -> Result<RevNo, MasterFault> {
        match ClientPort::latest(self) {
            Ok(number) => Ok(number),
            Err(fault) => Err(MasterFault::from(fault)),
        }
    }

    fn fetch(
        &mut self,
        _alloc: Global,
        number: RevNo,
        trees: &[Tree],
    ) -> Result<Fetched, MasterFault> {
        if trees.len() != number.index() {
            return Err(MasterFault::Refused(Refusal::WrongNumber));
        }
        match ClientPort::fetch(self, number, trees) {
            Ok((Applied { set, tree }, props)) => Ok(Fetched {
                set,
                tree: Some(tree),
                props,
            }),
            Err(fault) => Err(MasterFault::from(fault)),
        }
    }

    fn fetch_props(&mut self, _alloc: Global, number: RevNo) -> Result<Props, MasterFault> {
        match ClientPort::fetch_props(self, number) {
            Ok(props) => Ok(props),
            Err(fault) => Err(MasterFault::from(fault)),
        }
    }
}

// The identity as a mirror's properties spell it.
pub(crate) fn identity_text(alloc: Global, identity: &Uuid) -> Result<PropValue, AllocError>
    ensures { IfOk result (λ v. v ≡ hyphenated_text lower identity.now) }
{
    let mut buffer = Uuid::encode_buffer();
    let text = identity.hyphenated().encode_lower(&mut buffer);
    match PropValue::new(Vec::from_slice(alloc, text.as_bytes())?) {
        Ok(value) => Ok(value),
        Err(_) => Err(AllocError),
    }
}

/// What a job is told of a client's refusal: the refusal of the table, or that the server refused.
impl From<ClientFault> for MasterFault {
    ghost use Rattle.ra_client.specs.Masters.{of_client};

    ghost from_gives = { λ f m. m ≡ of_client f };

    fn from(fault: ClientFault) -> MasterFault {
        match fault {
            ClientFault::Edit(fault) => told_of_edit(fault),
            ClientFault::Refused | ClientFault::BadAnswer => MasterFault::Other,
        }
    }
}

// The same of the stream, or of the edit in it.
fn told_of_edit(fault: EditFault) -> MasterFault
    ensures { result ≡ of_edit fault }
{
    match fault {
        EditFault::BadSum => MasterFault::Refused(Refusal::BadSum),
        EditFault::Truncated => MasterFault::Refused(Refusal::Truncated),
        EditFault::TooLong => MasterFault::Refused(Refusal::TooLong),
        EditFault::Failed => MasterFault::Refused(Refusal::Failed),
        EditFault::BadItem => MasterFault::Refused(Refusal::BadItem),
        EditFault::TooDeep => MasterFault::Refused(Refusal::TooDeep),
        EditFault::BadWindow => MasterFault::Refused(Refusal::BadWindow),
        EditFault::CopyWindow => MasterFault::Refused(Refusal::CopyWindow),
        EditFault::BadToken => MasterFault::Refused(Refusal::BadToken),
        EditFault::BadShape => MasterFault::Refused(Refusal::BadShape),
        EditFault::PeerFailed => MasterFault::Refused(Refusal::PeerFailed),
        EditFault::Refused => MasterFault::Other,
        EditFault::OutOfMemory => MasterFault::Refused(Refusal::OutOfMemory),
        EditFault::Editor(fault) => MasterFault::Refused(told_of_editor(fault)),
    }
}

// The same of an editor that builds what comes.
fn told_of_editor(fault: EditorFault) -> Refusal
    ensures { result ≡ of_editor fault }
{
    match fault {
        EditorFault::TooLong => Refusal::TooLong,
        EditorFault::BadPath => Refusal::BadPath,
        EditorFault::NoSuchPath => Refusal::NoSuchPath,
        EditorFault::PathThere => Refusal::PathThere,
        EditorFault::NotDir => Refusal::NotDir,
        EditorFault::NoSource => Refusal::NoSource,
        EditorFault::OutOfOrder => Refusal::OutOfOrder,
        EditorFault::WrongNumber => Refusal::WrongNumber,
        EditorFault::KindMismatch => Refusal::KindMismatch,
        EditorFault::PeerFailed => Refusal::PeerFailed,
        EditorFault::OutOfMemory => Refusal::OutOfMemory,
    }
}

//! A repository as the master of a mirror, which is asked over sessions in memory.

ghost use Rattle.std.specs.Prelude.{◌≡◌, ◌<◌, ◌++◌, ℕ, List, None, Some, length, IfOk};
ghost use Rattle.byte_streams.specs.Memory.{held_of};
ghost use Rattle.uuid.specs.Text.{hyphenated_text, lower, parsed};
ghost use Rattle.node_base.specs.Tree.{PathMap};
ghost use Rattle.repo_core.specs.Repository.{head_of};
ghost use Rattle.ra_item.specs.Items.{Within};
ghost use Rattle.ra_wire.specs.Commands.{command_as, LatestRev, RevProplist, ReplayRange};
ghost use Rattle.ra_wire.specs.Requests.{command_item};
ghost use Rattle.sync_job.specs.Alone.{ArePropsIn, IsHeardOf, IsSetIn};
ghost use Rattle.sync_job.specs.Questions.{Identity, Latest, Fetch, FetchProps};
ghost use Rattle.session_road.specs.Served.{served_in, opening_told, words_for, IsSession, IsOpenBefore, IsAsked};

use crate::law::{each_revision_may_be_heard, server_tells_what_is_heard};
use crate::lent_repo::LentRepo;
use byte_streams::{CountedReader, MemOutput};
use dump_load::Applied;
use node_base::{PropValue, Props, Refusal, RevNo};
use path_tree::Tree;
use ra_client::{ClientFault, ClientPort};
use ra_edit::law::{written_comes, written_is_taken};
use ra_item::law::written_is_read;
use ra_serve::{ClientItems, End, ServeFault, serve};
use ra_wire::command::Command;
use ra_wire::command_writer::{write_anonymous, write_command, write_hello};
use repo_core::Repo;
use std::alloc::{AllocError, Global};
use std::io;
use sync_job::{Fetched, MasterFault, MasterPort};
use uuid::Uuid;

// The URL that is asked for; no answer hangs on it.
const URL: &[u8] = b"svn://127.0.0.1/";

// A client of a session whose bytes are all there, and what it writes.
type Client<'a> = ClientPort<CountedReader<&'a [u8]>, MemOutput>;

/// A repository that is lent as a master: each question is put to a server of it (`ra_serve`) in a session of its own,
/// and what that writes is heard by a client (`ra_client`), all in memory.
///
/// What is answered is what the repository has. A question is refused for want of memory (70), for a revision above
/// the head (21), and where the session or the client came to no end.
#[derive(Drop)]
pub struct ServedMaster<'a> {
    repo: &'a Repo,
}

impl<'a> ServedMaster<'a> {
    /// The master that this repository is.
    pub fn new(repo: &'a Repo) -> ServedMaster<'a>
        ensures { served_in result ≡ repo.now }
    {
        ServedMaster { repo }
    }
}

impl<'a> MasterPort for ServedMaster<'a> {
    ghost use Rattle.std.specs.Prelude.{◌≡◌};
    ghost use Rattle.std.specs.List.{AllByRecursion};
    ghost use Rattle.std.proofs.Common.{refl};
    ghost use Rattle.sync_job.specs.Alone.{IsHeardOf, IsMasterAt};

    ghost is_at = { λ a o. IsMasterAt a.repo.now o };

    ghost answered = { λ now first made. (now ≡ first) × AllByRecursion (IsHeardOf first.repo.now) made };

    ghost unasked = { λ _. (refl, tt) };

    fn identity(&mut self, alloc: Global) -> Result<PropValue, MasterFault> {
        identity_heard(alloc, self.repo)
    }

    fn latest(&mut self, alloc: Global) -> Result<RevNo, MasterFault> {
        latest_heard(alloc, self.repo)
    }

    fn fetch(
        &mut self,
        alloc: Global,
        number: RevNo,
        _trees: &[Tree],
    ) -> Result<Fetched, MasterFault> {
        revision_heard(alloc, self.repo, number)
    }

    fn fetch_props(&mut self, alloc: Global, number: RevNo) -> Result<Props, MasterFault> {
        props_heard(alloc, self.repo, number)
    }
}

// Which repository a server says that it has.
fn identity_heard(alloc: Global, repo: &Repo) -> Result<PropValue, MasterFault>
    ensures { IsHeardOf repo.now (Identity result) }
{
    let said = latest_asked(alloc, repo)?;
    match open(alloc, repo, said.bytes()) {
        Ok(client) => told_identity(alloc, client.identity()),
        Err(fault) => Err(MasterFault::from(fault)),
    }
}

// The newest revision that it tells.
fn latest_heard(alloc: Global, repo: &Repo) -> Result<RevNo, MasterFault>
    ensures { IsHeardOf repo.now (Latest result) }
{
    let said = latest_asked(alloc, repo)?;
    match open(alloc, repo, said.bytes()) {
        Ok(client) => newest(client, repo),
        Err(fault) => Err(MasterFault::from(fault)),
    }
}

// The properties that it tells of a revision.
fn props_heard(alloc: Global, repo: &Repo, number: RevNo) -> Result<Props, MasterFault>
    ensures { IsHeardOf repo.now (FetchProps number result) }
{
    if number > repo.head() {
        return Err(MasterFault::Refused(Refusal::NoSuchRevision));
    }
    let said = props_asked(alloc, repo, number)?;
    match open(alloc, repo, said.bytes()) {
        Ok(client) => props_of(client, repo, number),
        Err(fault) => Err(MasterFault::from(fault)),
    }
}

// The revision that it tells.
fn revision_heard(alloc: Global, repo: &Repo, number: RevNo) -> Result<Fetched, MasterFault>
    ensures answered { (trees : List PathMap) → IsHeardOf repo.now (Fetch number trees result) }
    ensures treeless { IfOk result (λ r. r.tree ≡ None) }
{
    if number > repo.head() {
        return Err(MasterFault::Refused(Refusal::NoSuchRevision));
    }
    let said = revision_asked(alloc, repo, number)?;
    match open(alloc, repo, said.bytes()) {
        Ok(client) => revision_of(client, repo, number),
        Err(fault) => Err(MasterFault::from(fault)),
    }
}

// What a server writes in a session in which the newest revision is asked for.
fn latest_asked(alloc: Global, repo: &Repo) -> Result<MemOutput, MasterFault>
    ensures { IfOk result (λ out. IsSession repo.now LatestRev (held_of out)) }
{
    session(alloc, repo, &Command::LatestRev)
}

// The same of the properties of a revision.
fn props_asked(alloc: Global, repo: &Repo, number: RevNo) -> Result<MemOutput, MasterFault>
    ensures { IfOk result (λ out. IsSession repo.now (RevProplist number) (held_of out)) }
{
    session(alloc, repo, &Command::RevProplist(u64::from(number.get())))
}

// The same of a revision.
fn revision_asked(alloc: Global, repo: &Repo, number: RevNo) -> Result<MemOutput, MasterFault>
    ensures { IfOk result (λ out. IsSession repo.now (ReplayRange number number) (held_of out)) }
{
    let n = u64::from(number.get());
    session(alloc, repo, &Command::ReplayRange(n, n))
}

// What a server writes in a session in which this is asked.
fn session(alloc: Global, repo: &Repo, command: &Command) -> Result<MemOutput, MasterFault>
    requires fits { Within (command_item (command_as command.now)) }
    ensures { IfOk result (λ out. IsSession repo.now (command_as command.now) (held_of out)) }
{
    written_is_read();
    let Ok(said) = words(alloc, command) else {
        return Err(MasterFault::Refused(Refusal::OutOfMemory));
    };
    let mut port = LentRepo::new(alloc, repo);
    let mut items = ClientItems::new(alloc, CountedReader::new(said.as_slice()));
    match serve(
        alloc,
        &mut port,
        URL,
        &mut items,
        MemOutput::new(alloc, u64::MAX),
    ) {
        Ok((out, End::Input)) => Ok(out),
        Ok(_) => Err(MasterFault::Other),
        Err(unserved) => Err(given_up(unserved.fault)),
    }
}

// What a session that was given up is to the mirror.
fn given_up(fault: ServeFault) -> MasterFault {
    match fault {
        ServeFault::ReadFailed | ServeFault::WriteFailed => {
            MasterFault::Refused(Refusal::PeerFailed)
        }
        ServeFault::OutOfMemory => MasterFault::Refused(Refusal::OutOfMemory),
    }
}

// What a client says that asks this alone.
fn words(alloc: Global, command: &Command) -> io::Result<Vec<u8>>
    ensures { IfOk result (λ v. v.items ≡ words_for (command_as command.now)) }
{
    let mut out = Vec::new(alloc);
    write_hello(&mut out, URL)?;
    write_anonymous(&mut out)?;
    write_command(&mut out, command)?;
    Ok(out)
}

// A client that has taken the opening of a session of this repository.
fn open<'a>(alloc: Global, repo: &Repo, bytes: &'a [u8]) -> Result<Client<'a>, ClientFault>
    ensures { (answer : List ℕ) → bytes.now ≡ opening_told repo.now ++ answer → IfOk result (IsOpenBefore repo.now answer) }
{
    written_is_taken();
    written_comes();
    identity_is_read(&repo.identity());
    ClientPort::open(
        alloc,
        URL,
        CountedReader::new(bytes),
        MemOutput::new(alloc, u64::MAX),
    )
}

// An identity's text is read as that identity.
fn identity_is_read(identity: &Uuid)
    ensures { Some identity.now ≡ parsed (hyphenated_text lower identity.now) }
{
    let mut buffer = Uuid::encode_buffer();
    let _text = identity.hyphenated().encode_lower(&mut buffer);
}

// The identity as a mirror's properties spell it.
fn told_identity(alloc: Global, identity: &Uuid) -> Result<PropValue, MasterFault>
    ensures { IfOk result (λ v. v ≡ hyphenated_text lower identity.now) }
{
    match identity_text(alloc, identity) {
        Ok(text) => Ok(text),
        Err(_) => Err(MasterFault::Refused(Refusal::OutOfMemory)),
    }
}

fn identity_text(alloc: Global, identity: &Uuid) -> Result<PropValue, AllocError>
    ensures { IfOk result (λ v. v ≡ hyphenated_text lower identity.now) }
{
    let mut buffer = Uuid::encode_buffer();
    let text = identity.hyphenated().encode_lower(&mut buffer);
    match PropValue::new(Vec::from_slice(alloc, text.as_bytes())?) {
        Ok(value) => Ok(value),
        Err(_) => Err(AllocError),
    }
}

// The newest revision, by what is to come.
fn newest(client: Client<'_>, repo: &Repo) -> Result<RevNo, MasterFault>
    ensures { IsAsked repo.now LatestRev client.entry → IfOk result (λ n. n ≡ head_of repo.now.revisions) }
{
    written_is_taken();
    written_comes();
    let _head = repo.head();
    let mut client = client;
    match client.latest() {
        Ok(number) => Ok(number),
        Err(fault) => Err(MasterFault::from(fault)),
    }
}

// The properties of a revision, by what is to come.
fn props_of(client: Client<'_>, repo: &Repo, number: RevNo) -> Result<Props, MasterFault>
    requires there { number < length repo.now.revisions }
    ensures { IsAsked repo.now (RevProplist number) client.entry → IfOk result (ArePropsIn repo.now number) }
{
    written_is_taken();
    written_comes();
    each_revision_may_be_heard(repo, number);
    let mut client = client;
    match client.fetch_props(number) {
        Ok(props) => Ok(props),
        Err(fault) => Err(MasterFault::from(fault)),
    }
}

// A revision, by what is to come.
fn revision_of(client: Client<'_>, repo: &Repo, number: RevNo) -> Result<Fetched, MasterFault>
    requires there { number < length repo.now.revisions }
    ensures heard { IsAsked repo.now (ReplayRange number number) client.entry
        → IfOk result (λ r. IsSetIn repo.now number r.set × ArePropsIn repo.now number r.props) }
    ensures treeless { IfOk result (λ r. r.tree ≡ None) }
{
    written_is_taken();
    written_comes();
    server_tells_what_is_heard();
    each_revision_may_be_heard(repo, number);
    let all = repo.trees();
    let count = number.index();
    let before = &all[..count];
    let mut client = client;
    match client.fetch(number, before) {
        Ok((applied, props)) => {
            let Applied { set, tree: _ } = applied;
            Ok(Fetched::without_tree(set, props))
        }
        Err(fault) => Err(MasterFault::from(fault)),
    }
}

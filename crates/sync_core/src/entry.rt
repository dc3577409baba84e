//! The entry that a call writes.
ghost use Rattle.std.specs.Prelude.{◌≡◌, ◌<◌, length, Option, Some, IfOk, IfErr, OnOk, IsOk};
ghost use Rattle.std.specs.Option.{option_and_then};
ghost use Rattle.std.specs.FinMap as finite;
ghost use Rattle.std.specs.Fmt as fmt;
ghost use Rattle.node_base.specs.Props.{copied_beside, without_sync};
ghost use Rattle.repo_core.specs.Repository.{props_at};
ghost use Rattle.repo_core.specs.Refusals.{by_repository, limit_fault};
ghost use Rattle.repo_core.specs.declared.entry.Entry.{Entry};
ghost use Rattle.repo_core.specs.declared.entry.Entry.TheVariants.{Revised, Mapped};
ghost use Rattle.repo_core.specs.declared.fault.RepoFault.{RepoFault};
ghost use Rattle.sync_core.specs.Names.{url_name, uuid_name, merged_name, copying_name, lock_name};
ghost use Rattle.sync_core.specs.Mirror.{entry_of, first_map};
ghost use Rattle.sync_core.specs.Calls.{call_of};
ghost use Rattle.sync_core.specs.Dues.{IsDue};
ghost use Rattle.sync_core.specs.Plain.{IsThere};
ghost use Rattle.sync_core.specs.declared.fault.SyncFault.TheVariants.{OutOfMemory};

use crate::call::MirrorCall;
use crate::fault::SyncFault;
use crate::properties::{copying_name, lock_name, merged_name, url_name, uuid_name};
use crate::token::Token;
use dump_load::ChangeSet;
use node_base::{PropFault, PropName, PropValue, Props, Refusal, RevNo};
use repo_core::{Entry, Repo};
use std::alloc::Global;

/// The one entry that an accepted call writes into the repository's journal; None for a look. Its set and its map share
/// what they can with the call and the repository.
///
/// Refused are, as the repository would refuse the entry, a revision above the head (21) and properties past the limits
/// (8); and want of memory.
pub fn entry_of(
    alloc: Global,
    repo: &Repo,
    call: &MirrorCall<'_>,
) -> Result<Option<Entry>, SyncFault>
    ensures entry { IfOk result (λ e. e ≡ entry_of repo.now.revisions (call_of call.now)) }
    ensures refused { IfErr result (λ f. IsDue f (option_and_then (by_repository repo.now.revisions)
        (entry_of repo.now.revisions (call_of call.now)))) }
    ensures there { OnOk result (IsThere repo.now.revisions (call_of call.now)) }
{
    match call {
        MirrorCall::Init { url, uuid, props } => written(init_entry(alloc, url, uuid, props)),
        MirrorCall::TakeLock(token) => written(lock_entry(alloc, repo, token)),
        MirrorCall::StealLock(token) => written(lock_entry(alloc, repo, token)),
        MirrorCall::ReleaseLock => written(release_entry(alloc, repo)),
        MirrorCall::SetCopying(number) => written(copying_entry(alloc, repo, *number)),
        MirrorCall::Commit { number, set, props } => {
            written(commit_entry(alloc, *number, set, props))
        }
        MirrorCall::PutProps { number, props } => written(props_entry(alloc, repo, *number, props)),
        MirrorCall::SetMerged(number) => written(merged_entry(alloc, repo, *number)),
        MirrorCall::ClearCopying => written(clear_entry(alloc, repo)),
        MirrorCall::Look => Ok(None),
    }
}

// The answer of a call that writes an entry.
fn written(entry: Result<Entry, SyncFault>) -> Result<Option<Entry>, SyncFault>
    ensures entry { (due : Entry) → IfOk entry (λ e. e ≡ due) → IfOk result (λ e. e ≡ Some due) }
    ensures refused { (due : Option RepoFault) → IfErr entry (λ f. IsDue f due) → IfErr result (λ f. IsDue f due) }
    ensures ok { OnOk result (IsOk entry) }
{
    match entry {
        Ok(entry) => Ok(Some(entry)),
        Err(fault) => Err(fault),
    }
}

/// The properties of revision 0, where a mirror's own are.
pub fn own_of(repo: &Repo) -> &Props
    ensures own { result.now ≡ props_at repo.now.revisions 0 }
    ensures begun { 0 < length repo.now.revisions }
{
    let _ = repo.head();
    match repo.props(RevNo::ZERO) {
        Some(own) => own,
        None => unreachable!(),
    }
}

fn lock_entry(alloc: Global, repo: &Repo, token: &Token) -> Result<Entry, SyncFault>
    ensures entry { IfOk result (λ e. e ≡ Mapped 0 (finite.insert
        (props_at repo.now.revisions 0) lock_name token.now)) }
    ensures refused { IfErr result (λ f. IsDue f (by_repository repo.now.revisions
        (Mapped 0 (finite.insert (props_at repo.now.revisions 0) lock_name token.now)))) }
{
    put_entry(alloc, repo, lock_name(), token.value(alloc)?)
}

fn release_entry(alloc: Global, repo: &Repo) -> Result<Entry, SyncFault>
    ensures entry { IfOk result (λ e. e ≡ Mapped 0 (finite.remove (props_at repo.now.revisions 0) lock_name)) }
    ensures refused { IfErr result (λ f. f ≡ OutOfMemory) }
{
    removal_entry(alloc, repo, lock_name())
}

fn copying_entry(alloc: Global, repo: &Repo, number: RevNo) -> Result<Entry, SyncFault>
    ensures entry { IfOk result (λ e. e ≡ Mapped 0 (finite.insert (props_at repo.now.revisions 0) copying_name
        (fmt.decimal number))) }
    ensures refused { IfErr result (λ f. IsDue f (by_repository repo.now.revisions
        (Mapped 0 (finite.insert (props_at repo.now.revisions 0) copying_name (fmt.decimal number))))) }
{
    put_entry(alloc, repo, copying_name(), decimal(alloc, number)?)
}

fn clear_entry(alloc: Global, repo: &Repo) -> Result<Entry, SyncFault>
    ensures entry { IfOk result (λ e. e ≡ Mapped 0 (finite.remove (props_at repo.now.revisions 0) copying_name)) }
    ensures refused { IfErr result (λ f. f ≡ OutOfMemory) }
{
    removal_entry(alloc, repo, copying_name())
}

fn merged_entry(alloc: Global, repo: &Repo, number: RevNo) -> Result<Entry, SyncFault>
    ensures entry { IfOk result (λ e. e ≡ Mapped 0 (finite.insert (props_at repo.now.revisions 0) merged_name
        (fmt.decimal number))) }
    ensures refused { IfErr result (λ f. IsDue f (by_repository repo.now.revisions
        (Mapped 0 (finite.insert (props_at repo.now.revisions 0) merged_name (fmt.decimal number))))) }
{
    put_entry(alloc, repo, merged_name(), decimal(alloc, number)?)
}

// A revision with the copied properties.
fn commit_entry(
    alloc: Global,
    number: RevNo,
    set: &ChangeSet,
    props: &Props,
) -> Result<Entry, SyncFault>
    ensures entry { IfOk result (λ e. e ≡ Revised number set.now (without_sync props.now)) }
    ensures memory { IfErr result (λ f. f ≡ OutOfMemory) }
{
    let set = set.share(alloc)?;
    let props = props.without_sync(alloc)?;
    Ok(Entry::Revised { number, set, props })
}

// The copied properties, where they come from, and that no more is merged than revision 0. They are within the limits:
// of the names that begin with `svn:sync-` there are three.
fn init_entry(
    alloc: Global,
    url: &PropValue,
    uuid: &PropValue,
    props: &Props,
) -> Result<Entry, SyncFault>
    ensures entry { IfOk result (λ e. e ≡ Mapped 0 (first_map url.now uuid.now props.now)) }
    ensures memory { IfErr result (λ f. f ≡ OutOfMemory) }
{
    let copied = props.without_sync(alloc)?;
    let with_url = with_url(alloc, copied, url)?;
    let with_uuid = with_uuid(alloc, with_url, uuid)?;
    let props = with_none_merged(alloc, with_uuid)?;
    Ok(of_zero(props))
}

fn with_url(alloc: Global, props: Props, url: &PropValue) -> Result<Props, SyncFault>
    ensures map { IfOk result (λ m. m ≡ finite.insert props url_name url.now) }
    ensures memory { IfErr result (λ f. f ≡ OutOfMemory) }
{
    let value = url.copy(alloc)?;
    match with_value(alloc, props, url_name(), value) {
        Ok(props) => Ok(props),
        Err(_) => Err(SyncFault::OutOfMemory),
    }
}

fn with_uuid(alloc: Global, props: Props, uuid: &PropValue) -> Result<Props, SyncFault>
    ensures map { IfOk result (λ m. m ≡ finite.insert props uuid_name uuid.now) }
    ensures memory { IfErr result (λ f. f ≡ OutOfMemory) }
{
    let value = uuid.copy(alloc)?;
    match with_value(alloc, props, uuid_name(), value) {
        Ok(props) => Ok(props),
        Err(_) => Err(SyncFault::OutOfMemory),
    }
}

fn with_none_merged(alloc: Global, props: Props) -> Result<Props, SyncFault>
    ensures map { IfOk result (λ m. m ≡ finite.insert props merged_name (fmt.decimal 0)) }
    ensures memory { IfErr result (λ f. f ≡ OutOfMemory) }
{
    let value = decimal(alloc, RevNo::ZERO)?;
    match with_value(alloc, props, merged_name(), value) {
        Ok(props) => Ok(props),
        Err(_) => Err(SyncFault::OutOfMemory),
    }
}

// The copied properties of a revision that is there, beside its own.
fn props_entry(alloc: Global, repo: &Repo, number: RevNo, props: &Props) -> Result<Entry, SyncFault>
    ensures entry { IfOk result (λ e. e ≡ Mapped number (copied_beside
        (props_at repo.now.revisions number) props.now)) }
    ensures refused { IfErr result (λ f. IsDue f (by_repository repo.now.revisions
        (Mapped number (copied_beside (props_at repo.now.revisions number) props.now)))) }
    ensures there { OnOk result (number < length repo.now.revisions) }
{
    match repo.props(number) {
        Some(own) => Ok(Entry::Mapped {
            number,
            props: own.copied_beside(alloc, props)?,
        }),
        None => Err(SyncFault::Other(Refusal::NoSuchRevision)),
    }
}

// Revision 0's map with a value at a name.
fn put_entry(alloc: Global, repo: &Repo, name: &[u8], value: PropValue) -> Result<Entry, SyncFault>
    ensures entry { IfOk result (λ e. e ≡ Mapped 0 (finite.insert (props_at repo.now.revisions 0) name.now value)) }
    ensures refused { IfErr result (λ f. IsDue f (by_repository repo.now.revisions
        (Mapped 0 (finite.insert (props_at repo.now.revisions 0) name.now value)))) }
{
    let own = own_of(repo).share()?;
    let props = with_value(alloc, own, name, value)?;
    Ok(of_zero(props))
}

// Revision 0's map without a name.
fn removal_entry(alloc: Global, repo: &Repo, name: &[u8]) -> Result<Entry, SyncFault>
    ensures entry { IfOk result (λ e. e ≡ Mapped 0 (finite.remove (props_at repo.now.revisions 0) name.now)) }
    ensures refused { IfErr result (λ f. f ≡ OutOfMemory) }
{
    let mut props = own_of(repo).share()?;
    props.remove(alloc, name)?;
    Ok(of_zero(props))
}

// The entry of revision 0's new map.
fn of_zero(props: Props) -> Entry
    ensures { result ≡ Mapped 0 props }
{
    Entry::Mapped {
        number: RevNo::ZERO,
        props,
    }
}

// The map with a value at a name.
fn with_value(
    alloc: Global,
    props: Props,
    name: &[u8],
    value: PropValue,
) -> Result<Props, SyncFault>
    ensures map { IfOk result (λ m. m ≡ finite.insert props name.now value) }
    ensures refused { IfErr result (λ f. IsDue f (limit_fault (finite.insert props name.now value))) }
{
    let Ok(name) = PropName::parse(alloc, name) else {
        return Err(SyncFault::OutOfMemory);
    };
    let mut props = props;
    match props.set(alloc, name, value) {
        Ok(()) => Ok(props),
        Err(PropFault::TooLong) => Err(SyncFault::Other(Refusal::TooLong)),
        Err(_) => Err(SyncFault::OutOfMemory),
    }
}

// A number as it stands in a property.
fn decimal(alloc: Global, number: RevNo) -> Result<PropValue, SyncFault>
    ensures value { IfOk result (λ v. v ≡ fmt.decimal number) }
    ensures memory { IfErr result (λ f. f ≡ OutOfMemory) }
{
    let text = format!(in alloc; "{number}")?;
    match PropValue::new(text.into_bytes()) {
        Ok(value) => Ok(value),
        Err(_) => Err(SyncFault::OutOfMemory),
    }
}

//! What calls are given: identities, paths, values, tokens, logs and stores; and what is made of their answers.

use fleet_disk::MemDisk;
use node_base::{NodePath, PropName, PropValue, Props};
use repo_store::RepoStore;
use std::alloc::Global;
use std::process::Abort;
use sync_core::{SyncFault, Token};
use uuid::Uuid;

/// The identity of a master.
pub(crate) const MASTER: &str = "6a1f0c3e-0000-4000-8000-000000000001";

/// The identity that a mirror has before it is begun.
pub(crate) const OTHER: &str = "6a1f0c3e-0000-4000-8000-000000000002";

/// The number of a refusal, 0 where there is none.
pub(crate) fn number_of<T: Drop>(answer: Result<T, SyncFault>) -> u8 {
    match answer {
        Ok(_) => 0,
        Err(fault) => fault.number(),
    }
}

/// A path.
pub(crate) fn path(rt: &impl Abort, alloc: Global, text: &str) -> NodePath {
    NodePath::parse(alloc, text.as_bytes()).expect(rt, "a path")
}

/// A property's name.
pub(crate) fn name(rt: &impl Abort, alloc: Global, text: &[u8]) -> PropName {
    PropName::parse(alloc, text).expect(rt, "a property's name")
}

/// A property's value; None where memory is refused.
pub(crate) fn some_value(alloc: Global, text: &[u8]) -> Option<PropValue> {
    PropValue::new(Vec::from_slice(alloc, text).ok()?).ok()
}

/// A property's value.
pub(crate) fn value(rt: &impl Abort, alloc: Global, text: &[u8]) -> PropValue {
    some_value(alloc, text).expect(rt, "a property's value")
}

/// A job's token; None where memory is refused.
pub(crate) fn some_token(alloc: Global, text: &[u8]) -> Option<Token> {
    Token::new(Vec::from_slice(alloc, text).ok()?)
}

/// A job's token.
pub(crate) fn token(rt: &impl Abort, alloc: Global, text: &[u8]) -> Token {
    some_token(alloc, text).expect(rt, "a token")
}

/// Properties with a log; None where memory is refused.
pub(crate) fn some_log(alloc: Global, text: &[u8]) -> Option<Props> {
    let name = PropName::parse(alloc, b"svn:log").ok()?;
    let value = some_value(alloc, text)?;
    let mut props = Props::empty();
    match props.set(alloc, name, value) {
        Ok(()) => Some(props),
        Err(_) => None,
    }
}

/// Properties with a log.
pub(crate) fn log(rt: &impl Abort, alloc: Global, text: &[u8]) -> Props {
    some_log(alloc, text).expect(rt, "a log")
}

/// A store that is begun with this identity; None where memory is refused.
pub(crate) fn some_store(alloc: Global, identity: &str) -> Option<RepoStore<MemDisk>> {
    let identity = Uuid::parse_str(identity).ok()?;
    match RepoStore::create(alloc, MemDisk::new(alloc), identity) {
        Ok(store) => Some(store),
        Err(_) => None,
    }
}

/// A store that is begun with this identity.
pub(crate) fn created(rt: &impl Abort, alloc: Global, identity: &str) -> RepoStore<MemDisk> {
    some_store(alloc, identity).expect(rt, "a store")
}

/// Nothing of this was wrong: it is asserted here for all tests, and what is wrong is told.
pub(crate) fn none_wrong(rt: &impl Abort, what: &str, wrong: Option<u64>) {
    assert_eq!(rt; wrong, None, "{what}");
}

//! Property maps in which one value is changed.
ghost use Rattle.std.specs.Prelude.{◌≡◌, None, IfOk, IfErr};
ghost use Rattle.std.specs.Option.{option_copied};
ghost use Rattle.std.specs.FinMap as map;
ghost use Rattle.repo_core.specs.Dates.{dated};
ghost use Rattle.repo_core.specs.Refusals.{limit_fault, with_value, IsDue};

use crate::{Moment, RepoFault};
use node_base::{PropFault, PropName, PropValue, Props};
use std::alloc::{AllocError, Global};

/// The value at a name, copied.
pub fn value_at(alloc: Global, props: &Props, name: &[u8]) -> Result<Option<PropValue>, AllocError>
    ensures { IfOk result (λ v. v ≡ map.get props.now name.now) }
{
    let _ = props.entries();
    match props.get(name) {
        None => Ok(None),
        Some(value) => match PropValue::new(Vec::from_slice(alloc, value)?) {
            Ok(value) => Ok(Some(value)),
            Err(_) => unreachable!(),
        },
    }
}

// The map with a value at a name.
fn insert(alloc: Global, props: Props, name: PropName, value: Vec<u8>) -> Result<Props, RepoFault>
    ensures map { IfOk result (λ m. m ≡ map.insert props name value.items) }
    ensures within { IfOk result (λ m. limit_fault m ≡ None) }
    ensures refused { IfErr result (λ e. IsDue e (limit_fault (map.insert props name value.items))) }
{
    let Ok(value) = PropValue::new(value) else {
        return Err(RepoFault::TooLong);
    };
    let mut props = props;
    match props.set(alloc, name, value) {
        Ok(()) => {
            let _ = props.entries();
            Ok(props)
        }
        Err(PropFault::TooLong) => Err(RepoFault::TooLong),
        Err(_) => Err(RepoFault::OutOfMemory),
    }
}

/// The map with the value at the name, or without one there.
pub fn with_value(
    alloc: Global,
    props: Props,
    name: &PropName,
    value: Option<&[u8]>,
) -> Result<Props, RepoFault>
    ensures map { IfOk result (λ m. m ≡ with_value props name.now (option_copied value.entry)) }
    ensures within { IfOk result (λ m. limit_fault m ≡ None) }
    ensures refused { IfErr result
        (λ e. IsDue e (limit_fault (with_value props name.now (option_copied value.entry)))) }
{
    match value {
        Some(value) => {
            let value = Vec::from_slice(alloc, value)?;
            insert(alloc, props, name.copy(alloc)?, value)
        }
        None => {
            let mut props = props;
            props.remove(alloc, name.as_bytes())?;
            let _ = props.entries();
            Ok(props)
        }
    }
}

/// The map with the text of a moment as its `svn:date`, where a moment is given.
pub fn dated(alloc: Global, props: Props, moment: Option<Moment>) -> Result<Props, RepoFault>
    ensures map { IfOk result (λ m. m ≡ dated props moment) }
    ensures within { IfOk result (λ m. limit_fault m ≡ None) }
    ensures refused { IfErr result (λ e. IsDue e (limit_fault (dated props moment))) }
{
    let Some(moment) = moment else {
        let _ = props.entries();
        return Ok(props);
    };
    let text = moment.date_text(alloc)?;
    match PropName::parse(alloc, b"svn:date") {
        Ok(name) => insert(alloc, props, name, text.into_bytes()),
        Err(_) => Err(RepoFault::OutOfMemory),
    }
}

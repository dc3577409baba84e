//! Looking how a mirror stands.
ghost use Rattle.std.specs.Prelude.{◌≡◌, IfOk};
ghost use Rattle.std.specs.FinMap as finite;
ghost use Rattle.sync_core.specs.Mirror.{standing_in};
ghost use Rattle.sync_core.specs.Names.{url_name, uuid_name, merged_name, copying_name, lock_name};

use crate::properties::{
    copying, copying_name, lock_name, merged, merged_name, url_name, uuid_name,
};
use crate::standing::Standing;
use node_base::{PropValue, Props, RevNo};
use std::alloc::{AllocError, Global};

/// How a mirror stands whose revision 0 has these properties, and whose head that is. The texts are copied.
pub fn look(alloc: Global, own: &Props, head: RevNo) -> Result<Standing, AllocError>
    ensures { IfOk result (λ s. s ≡ standing_in own.now head) }
{
    let url = url_of(alloc, own)?;
    let uuid = uuid_of(alloc, own)?;
    let merged_text = merged_of(alloc, own)?;
    let copying_text = copying_of(alloc, own)?;
    let lock = lock_of(alloc, own)?;
    Ok(Standing {
        url,
        uuid,
        merged: merged(own),
        copying: copying(own),
        merged_text,
        copying_text,
        lock,
        head,
    })
}

fn url_of(alloc: Global, own: &Props) -> Result<Option<PropValue>, AllocError>
    ensures { IfOk result (λ v. v ≡ finite.get own.now url_name) }
{
    value_at(alloc, own, url_name())
}

fn uuid_of(alloc: Global, own: &Props) -> Result<Option<PropValue>, AllocError>
    ensures { IfOk result (λ v. v ≡ finite.get own.now uuid_name) }
{
    value_at(alloc, own, uuid_name())
}

fn merged_of(alloc: Global, own: &Props) -> Result<Option<PropValue>, AllocError>
    ensures { IfOk result (λ v. v ≡ finite.get own.now merged_name) }
{
    value_at(alloc, own, merged_name())
}

fn copying_of(alloc: Global, own: &Props) -> Result<Option<PropValue>, AllocError>
    ensures { IfOk result (λ v. v ≡ finite.get own.now copying_name) }
{
    value_at(alloc, own, copying_name())
}

fn lock_of(alloc: Global, own: &Props) -> Result<Option<PropValue>, AllocError>
    ensures { IfOk result (λ v. v ≡ finite.get own.now lock_name) }
{
    value_at(alloc, own, lock_name())
}

// The value at a name, copied.
fn value_at(alloc: Global, own: &Props, name: &[u8]) -> Result<Option<PropValue>, AllocError>
    ensures { IfOk result (λ v. v ≡ finite.get own.now name.now) }
{
    let _ = own.entries();
    match own.get(name) {
        None => Ok(None),
        Some(value) => match PropValue::new(Vec::from_slice(alloc, value)?) {
            Ok(value) => Ok(Some(value)),
            Err(_) => unreachable!(),
        },
    }
}

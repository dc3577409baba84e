//! The refusal that an unmet need is.
ghost use Rattle.std.specs.Prelude.{◌≡◌, [], IfOk, unwrap_or};
ghost use Rattle.std.specs.FinMap as finite;
ghost use Rattle.sync_core.specs.Names.{lock_name};
ghost use Rattle.sync_core.specs.Dues.{IsNeedAnswer};

use crate::fault::SyncFault;
use crate::lock_token::LockToken;
use crate::need::Need;
use crate::properties::lock;
use node_base::Props;
use std::alloc::{AllocError, Global};

/// The refusal that an unmet need is. A lock that is held, or a holder, is told with the lock's text, for which memory
/// is taken: only there can memory be short.
pub fn need_fault(alloc: Global, need: Need, own: &Props) -> SyncFault
    ensures { IsNeedAnswer need (finite.get own.now lock_name) result }
{
    match need {
        Need::NotInitialised => SyncFault::NotInitialised,
        Need::AlreadyInitialised => SyncFault::AlreadyInitialised,
        Need::NotEmpty => SyncFault::NotEmpty,
        Need::LockHeld => match lock_token(alloc, own) {
            Ok(token) => SyncFault::LockHeld(token),
            Err(_) => SyncFault::OutOfMemory,
        },
        Need::HolderRunning => match lock_token(alloc, own) {
            Ok(token) => SyncFault::HolderRunning(token),
            Err(_) => SyncFault::OutOfMemory,
        },
        Need::NotHolder => SyncFault::NotHolder,
        Need::OutOfTurn => SyncFault::OutOfTurn,
    }
}

// The text of the lock, and nothing where there is none.
fn lock_token(alloc: Global, own: &Props) -> Result<LockToken, AllocError>
    ensures { IfOk result (λ t. t.bytes.items ≡ unwrap_or (finite.get own.now lock_name) []) }
{
    let bytes = match lock(own) {
        Some(text) => Vec::from_slice(alloc, text)?,
        None => Vec::new(alloc),
    };
    Ok(LockToken { bytes })
}

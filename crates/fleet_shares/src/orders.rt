//! The orders that bring each mirror up.
ghost use Rattle.std.specs.Prelude.{◌≡◌, ◌<◌, map, IfOk};
ghost use Rattle.std.specs.List.{range_with_len};
ghost use Rattle.fleet_shares.specs.Orders.{sync_order};

use fleet_jobs::{Order, Work};
use std::alloc::{AllocError, Global};
use sync_core::Token;

/// An order for each of the first so many slots, in order: to bring its mirror up to the master, under the token
/// `fleet-1` for the first, `fleet-2` for the second, and so on. Only want of memory (70) refuses it.
pub fn sync_orders(alloc: Global, count: usize) -> Result<Vec<Order>, AllocError>
    ensures { IfOk result (λ os. os.items ≡ map sync_order (range_with_len 0 count)) }
{
    let mut orders = Vec::with_capacity(alloc, count)?;
    for slot in 0..count {
        orders.push(order_of(alloc, slot)?)?;
    }
    Ok(orders)
}

// The order of a slot.
fn order_of(alloc: Global, slot: usize) -> Result<Order, AllocError>
    requires { slot < 18446744073709551615 }
    ensures { IfOk result (λ o. o ≡ sync_order slot) }
{
    let number = slot as u64 + 1;
    let text = format!(in alloc; "fleet-{number}")?;
    match Token::new(Vec::from_slice(alloc, text.as_bytes())?) {
        Some(token) => Ok(Order {
            mirror: slot,
            work: Work::Sync { steal: false },
            token,
        }),
        None => Err(AllocError),
    }
}

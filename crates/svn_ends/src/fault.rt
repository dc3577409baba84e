//! The refusals that a port counts.

ghost use Rattle.std.specs.Prelude.{◌≡◌, ◌≤◌, None};
ghost use Rattle.fleet_disk.specs.Rules.{Rose};
ghost use Rattle.ra_serve.specs.Ports.{IsOwn};
ghost use Rattle.svn_ends.specs.Ports.{first_then};

use ra_serve::PortFault;

/// How often a port refused a call by itself, and the first of these refusals.
#[derive(Drop)]
pub(crate) struct Refusals {
    pub(crate) count: u64,
    pub(crate) first: Option<PortFault>,
}

impl Refusals {
    /// It refused none.
    pub(crate) fn none() -> Refusals
        ensures { result.first ≡ None }
    {
        Refusals {
            count: 0,
            first: None,
        }
    }
}

/// A refusal, which is counted where it is the port's own.
pub(crate) fn counted(refusals: &mut Refusals, fault: PortFault) -> PortFault
    ensures fault { result ≡ fault }
    ensures count { IsOwn fault → Rose refusals.old.count refusals.new.count }
    ensures later { refusals.old.count ≤ refusals.new.count }
    ensures first { IsOwn fault → refusals.new.first ≡ first_then refusals.old.first fault }
{
    match fault {
        PortFault::TooLong | PortFault::NoSuchRevision | PortFault::BaseMismatch => fault,
        _ => {
            refusals.count = refusals.count.saturating_add(1);
            if refusals.first.is_none() {
                refusals.first = Some(fault);
            }
            fault
        }
    }
}

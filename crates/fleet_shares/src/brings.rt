//! Which mirrors of a fleet were brought up.
ghost use Rattle.std.specs.Prelude.{◌≡◌};
ghost use Rattle.fleet_shares.specs.Closing.{brings_at};

/// Of the mirrors of four slots, whether each has been brought up to the master.
#[derive(Drop)]
pub(crate) struct Brings {
    pub(crate) first: bool,
    pub(crate) second: bool,
    pub(crate) third: bool,
    pub(crate) fourth: bool,
}

impl Brings {
    /// Whether the mirror of that slot has.
    pub(crate) fn at(&self, slot: usize) -> bool
        ensures { result ≡ brings_at self.now slot }
    {
        match slot {
            0 => self.first,
            1 => self.second,
            2 => self.third,
            3 => self.fourth,
            _ => false,
        }
    }
}

//! A master that threads share, as the port of one job.

use fleet_disk::MemDisk;
use node_base::{PropValue, Props, Refusal, RevNo};
use path_tree::Tree;
use std::alloc::Global;
use std::sync::Wait;
use store_share::{MasterShare, ReaderSeat, RowName};
use sync_job::{Fetched, MasterFault, MasterPort};

/// A master that threads share, as one job sees it.
#[derive(Drop)]
pub(crate) struct SeatMaster<'a, R: Wait, L: RowName> {
    pub(crate) rt: &'a R,
    pub(crate) share: &'a MasterShare<L, MemDisk>,
    pub(crate) reader: ReaderSeat<L>,
}

impl<R: Wait, L: RowName> MasterPort for SeatMaster<'_, R, L> {
    ghost use Rattle.std.specs.Prelude.{ℕ};

    ghost is_at = { λ _ _. ⊥ };

    ghost answered = { λ _ _ _. Unit {0} };

    ghost unasked = { λ _. tt };

    fn identity(&mut self, alloc: Global) -> Result<PropValue, MasterFault> {
        let mut buffer = [0u8; 36];
        let text = self
            .share
            .identity(self.rt)
            .hyphenated()
            .encode_lower(&mut buffer);
        let Ok(bytes) = Vec::from_slice(alloc, text.as_bytes()) else {
            return Err(MasterFault::Refused(Refusal::OutOfMemory));
        };
        PropValue::new(bytes).map_err(|_| MasterFault::Other)
    }

    fn latest(&mut self, _alloc: Global) -> Result<RevNo, MasterFault> {
        Ok(self.share.latest(self.rt, &mut self.reader))
    }

    fn fetch(
        &mut self,
        alloc: Global,
        number: RevNo,
        _trees: &[Tree],
    ) -> Result<Fetched, MasterFault> {
        match self.share.fetch(self.rt, alloc, &mut self.reader, number) {
            Ok((set, props)) => Ok(Fetched::without_tree(set, props)),
            Err(_) => Err(MasterFault::Other),
        }
    }

    fn fetch_props(&mut self, _alloc: Global, number: RevNo) -> Result<Props, MasterFault> {
        match self.share.fetch_props(self.rt, number) {
            Ok(props) => Ok(props),
            Err(_) => Err(MasterFault::Other),
        }
    }
}

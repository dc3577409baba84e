//! A client and a server of one session: what the one tells is what the other hears.
//!
//! [`served::ServedMaster`] is a repository as the master of a mirror that is asked over such sessions in memory, and
//! [`runs::run_served`] a run over it.
#![tactic(auto)]

pub mod law;
pub mod lent_repo;
pub mod range;
pub mod runs;
pub mod served;

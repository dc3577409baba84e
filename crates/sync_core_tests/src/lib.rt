//! Tests of `sync_core` through its public items: a mirror's calls and jobs with the answers that svnsync's protocol
//! fixes; random walks, of calls of one mirror, and of events of a master, two mirrors and their jobs, each beside a
//! plain re-computation.
#![tactic(auto)]

#[cfg(test)]
mod plain_world;
#[cfg(test)]
mod tests;
#[cfg(test)]
mod walk_tests;
#[cfg(test)]
mod world_tests;

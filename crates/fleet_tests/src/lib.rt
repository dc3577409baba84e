//! Tests of what threads share, and of the commands. Of threads: the seats of a store, the workers and orders of
//! `fleet_jobs`, a fleet over stores in memory, and many threads at once: committers at a master, jobs at two mirrors of it
//! and readers, a machine that stops amid them, and a fleet whose workers run the jobs of mirrors that
//! are served meanwhile. Of commands: their words, streams
//! that fail, and reports.
#![tactic(auto)]

#[cfg(test)]
mod answer_tests;
#[cfg(test)]
mod beside_tests;
#[cfg(test)]
mod board;
#[cfg(test)]
mod crowd;
#[cfg(test)]
mod crowd_made;
#[cfg(test)]
mod crowd_tests;
#[cfg(test)]
mod dumps;
#[cfg(test)]
mod fetch_tests;
#[cfg(test)]
mod fleet_crowd;
#[cfg(test)]
mod fleet_crowd_tests;
#[cfg(test)]
mod fleets;
#[cfg(test)]
mod fronts;
#[cfg(test)]
mod gates;
#[cfg(test)]
mod growth_tests;
#[cfg(test)]
mod master;
#[cfg(test)]
mod order_tests;
#[cfg(test)]
mod orders;
#[cfg(test)]
mod report_tests;
#[cfg(test)]
mod seat_tests;
#[cfg(test)]
mod served_crowd;
#[cfg(test)]
mod stores;
#[cfg(test)]
mod stream_tests;
#[cfg(test)]
mod word_tests;
#[cfg(test)]
mod worker_tests;

//! Tests of what speaks ra_svn on both sides, by public items. Of `ra_serve`: readers, writers, ports and growths that
//! fail. Of `ra_client` and `session_road`: openings, answers and edits that are spelled out, those that a server writes,
//! cut anyhow, refusals and what follows them, growths that are refused, and streams that fail. Of `svn_ends`: seats that
//! others change things under.
#![tactic(auto)]

#[cfg(test)]
mod client_failure_tests;
#[cfg(test)]
mod client_growth_tests;
#[cfg(test)]
mod client_opening_tests;
#[cfg(test)]
mod client_sessions;
#[cfg(test)]
mod clients;
#[cfg(test)]
mod counted_tests;
#[cfg(test)]
mod edits;
#[cfg(test)]
mod job_stream_tests;
#[cfg(test)]
mod port_tests;
#[cfg(test)]
mod range_tests;
#[cfg(test)]
mod refusal_tests;
#[cfg(test)]
mod road_tests;
#[cfg(test)]
mod seat_tests;
#[cfg(test)]
mod serve_failure_tests;
#[cfg(test)]
mod serve_growth_tests;
#[cfg(test)]
mod serve_opening_tests;
#[cfg(test)]
mod serve_sessions;
#[cfg(test)]
mod serve_streams;
#[cfg(test)]
mod served_repos;
#[cfg(test)]
mod served_tests;
#[cfg(test)]
mod sets;
#[cfg(test)]
mod stores;
#[cfg(test)]
mod sync_runs;

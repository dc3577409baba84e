//! Tests of `ra_reader` and `ra_browse` through their public items: what a session of a reader answers, beside what
//! Subversion's own `svnserve` of version 1.14.2 answered of the same repository, openings, reports, and streams that fail.
//!
//! Of an answer of `svnserve` the tables change two things that no client decides by: properties and entries stand in the
//! order of their names, and a failure has this crate's text.
#![tactic(auto)]

#[cfg(test)]
mod answer_tests;
#[cfg(test)]
mod date_session_tests;
#[cfg(test)]
mod failure_tests;
#[cfg(test)]
mod history_session_tests;
#[cfg(test)]
mod history_tests;
#[cfg(test)]
mod log_session_tests;
#[cfg(test)]
mod opening_tests;
#[cfg(test)]
mod place_tests;
#[cfg(test)]
mod report_tests;
#[cfg(test)]
mod sessions;
#[cfg(test)]
mod site;
#[cfg(test)]
mod version_session_tests;

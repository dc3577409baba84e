//! Tests of sets of changes and what they make of trees, by the public items of `dump_load`; of texts that are given as
//! deltas, by those of `whole_texts`; and of histories, logs and changed paths against what Subversion tells, by those of
//! `path_history`.
#![tactic(auto)]

#[cfg(test)]
mod delta_tests;
#[cfg(test)]
mod history_tests;
#[cfg(test)]
mod limit_tests;
#[cfg(test)]
mod part_tests;
#[cfg(test)]
mod repository;
#[cfg(test)]
mod set_tests;
#[cfg(test)]
mod small;
#[cfg(test)]
mod spelled;
#[cfg(test)]
mod stretch_tests;
#[cfg(test)]
mod table_tests;
#[cfg(test)]
mod whole_text_tests;

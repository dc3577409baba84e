//! Tests of `path_tree` and `plain_tree` through their public items; of dump text that is read and written, by those of
//! `dump_text`; and of differences of trees and reports of working copies, by those of `tree_reports`.
#![tactic(auto)]

#[cfg(test)]
mod calls;
#[cfg(test)]
mod checked;
#[cfg(test)]
mod children_tests;
#[cfg(test)]
mod delta_tests;
#[cfg(test)]
mod difference_tests;
#[cfg(test)]
mod line_tests;
#[cfg(test)]
mod lines;
#[cfg(test)]
mod node_tests;
#[cfg(test)]
mod piece_tests;
#[cfg(test)]
mod reach_tests;
#[cfg(test)]
mod report_tests;
#[cfg(test)]
mod sparse_tests;
#[cfg(test)]
mod text_delta_tests;
#[cfg(test)]
mod tree_tests;
#[cfg(test)]
mod trees;
#[cfg(test)]
mod whole_tests;
#[cfg(test)]
mod wide_tests;

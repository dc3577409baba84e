//! Tests of `ra_report` through its public items: edits beside those of Subversion's `svnserve` of version 1.14.2, what
//! is denied by Subversion's own numbers, writers that fail, and growths that are refused.
#![tactic(auto)]

#[cfg(test)]
mod denial_tests;
#[cfg(test)]
mod edit_tests;
#[cfg(test)]
mod elsewhere_tests;
#[cfg(test)]
mod failure_tests;
#[cfg(test)]
mod growth_tests;
#[cfg(test)]
mod reports;
#[cfg(test)]
mod site;
#[cfg(test)]
mod sparse_tests;
#[cfg(test)]
mod switch_tests;
#[cfg(test)]
mod target_tests;

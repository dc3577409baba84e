//! Tests of names, paths, properties, texts and nodes, by the public items of `node_base`.
#![tactic(auto)]

#[cfg(test)]
mod block_tests;
#[cfg(test)]
mod checked;
#[cfg(test)]
mod delta_tests;
#[cfg(test)]
mod path_tests;
#[cfg(test)]
mod prop_tests;
#[cfg(test)]
mod refusal_tests;

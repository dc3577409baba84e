//! Tests of `delta_editor`, `editor_ends`, `ra_edit` and `edit_road` through their public items: what a recorder keeps of
//! the calls that it is shown, what a set is driven as, and sets that are built again of such calls; drives spelled out by
//! hand, cut and changed anyhow; sets that are sent and received again, cut anyhow; growths that are refused, and readers,
//! writers and editors that fail.
#![tactic(auto)]

#[cfg(test)]
mod build_tests;
#[cfg(test)]
mod call_lines;
#[cfg(test)]
mod checked;
#[cfg(test)]
mod counting_tests;
#[cfg(test)]
mod delta_tests;
#[cfg(test)]
mod drive_tests;
#[cfg(test)]
mod edit_growth_tests;
#[cfg(test)]
mod failure_tests;
#[cfg(test)]
mod generated_tests;
#[cfg(test)]
mod growth_tests;
#[cfg(test)]
mod law_tests;
#[cfg(test)]
mod receive_tests;
#[cfg(test)]
mod received_tests;
#[cfg(test)]
mod recorder_tests;
#[cfg(test)]
mod road_tests;
#[cfg(test)]
mod roads;
#[cfg(test)]
mod sets;
#[cfg(test)]
mod spelled_tests;
#[cfg(test)]
mod streams_for_tests;
#[cfg(test)]
mod wire_tests;

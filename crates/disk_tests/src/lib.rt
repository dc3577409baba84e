//! Tests of disks and of the logs on them, by their public items.
#![tactic(auto)]

#[cfg(test)]
mod ahead_tests;
#[cfg(test)]
mod disk_tests;
#[cfg(test)]
mod fake_tests;
#[cfg(test)]
mod folder_tests;
#[cfg(test)]
mod folders;
#[cfg(test)]
mod growth_tests;
#[cfg(test)]
mod log_tests;
#[cfg(test)]
mod one_folder;
#[cfg(test)]
mod one_folder_tests;
#[cfg(test)]
mod steps;
#[cfg(test)]
mod upgrade_tests;

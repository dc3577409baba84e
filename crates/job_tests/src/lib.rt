//! Tests of repositories, mirrors and jobs, by public items. Of repositories in memory and on a disk, and of jobs over a
//! master and a mirror in stores: what is told and left, stops and failures at each call of the device, growths of memory
//! that are refused, and masters that refuse. Of a mirror that threads share: jobs at it, readers beside a job that runs,
//! what is refused, a device that fails, a machine that stops between a job's calls, and seats that hold and let go.
#![tactic(auto)]

#[cfg(test)]
mod begin_tests;
#[cfg(test)]
mod book_tests;
#[cfg(test)]
mod calls;
#[cfg(test)]
mod growth_tests;
#[cfg(test)]
mod job_failure_tests;
#[cfg(test)]
mod jobs;
#[cfg(test)]
mod master_tests;
#[cfg(test)]
mod repo_tests;
#[cfg(test)]
mod rows;
#[cfg(test)]
mod share_growth_tests;
#[cfg(test)]
mod share_run_tests;
#[cfg(test)]
mod share_seat_tests;
#[cfg(test)]
mod share_stop_tests;
#[cfg(test)]
mod shares;
#[cfg(test)]
mod stage_tests;
#[cfg(test)]
mod store_tests;
#[cfg(test)]
mod values;

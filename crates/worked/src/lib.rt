//! Worked cases of the storage and of whole jobs and stores: tests alone; nothing stands on it.
#![tactic(auto)]

#[cfg(test)]
mod active_tests;
#[cfg(test)]
mod buffer_tests;
#[cfg(test)]
mod file_tests;
#[cfg(test)]
mod job_tests;
#[cfg(test)]
mod unit_tests;

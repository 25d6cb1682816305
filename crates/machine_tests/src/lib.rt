//! Tests of boards and of windows on them, and of the registry, of write-back, of updates and of the page cache in their
//! memory: of what needs a whole machine in memory. So it stands above all crates that it tests.
#![tactic(auto)]

#[cfg(test)]
mod ahead_tests;
#[cfg(test)]
mod board_rows;
#[cfg(test)]
mod board_tests;
#[cfg(test)]
mod cache_tests;
#[cfg(test)]
mod cache_walks;
#[cfg(test)]
mod cached;
#[cfg(test)]
mod copy_rows;
#[cfg(test)]
mod crash_tests;
#[cfg(test)]
mod crashes;
#[cfg(test)]
mod draws;
#[cfg(test)]
mod entries;
#[cfg(test)]
mod jobs;
#[cfg(test)]
mod machines;
#[cfg(test)]
mod plain_blocks;
#[cfg(test)]
mod raw_walks;
#[cfg(test)]
mod rig;
#[cfg(test)]
mod same;
#[cfg(test)]
mod shadow_tests;
#[cfg(test)]
mod standing_tests;
#[cfg(test)]
mod walk;
#[cfg(test)]
mod walks;
#[cfg(test)]
mod wild_tests;
#[cfg(test)]
mod window_rows;
#[cfg(test)]
mod write_back_tests;

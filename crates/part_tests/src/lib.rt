//! Tests of small parts, each by itself: memory, and memory that a file follows; disks, dumps and wild stores; the pool of
//! frames; the bytes of an image and of a volume; the registry; lists of names; the objects in memory for tests; and the
//! loop of lines. They stand above these crates, so that each of them is proved once.
#![tactic(auto)]

#[cfg(test)]
mod bounded;
#[cfg(test)]
mod disk_call_tests;
#[cfg(test)]
mod disk_drawn_tests;
#[cfg(test)]
mod disk_open_tests;
#[cfg(test)]
mod disk_rig;
#[cfg(test)]
mod dump_rig;
#[cfg(test)]
mod frame_pool_drawn_tests;
#[cfg(test)]
mod frame_pool_tests;
#[cfg(test)]
mod gathering_tests;
#[cfg(test)]
mod held_bench_tests;
#[cfg(test)]
mod held_changes;
#[cfg(test)]
mod held_failing_tests;
#[cfg(test)]
mod held_length_tests;
#[cfg(test)]
mod held_moment_tests;
#[cfg(test)]
mod held_plain;
#[cfg(test)]
mod held_rig;
#[cfg(test)]
mod image_tests;
mod lamp;
#[cfg(test)]
mod loop_tests;
#[cfg(test)]
mod mem_disk_tests;
#[cfg(test)]
mod memory_tests;
#[cfg(test)]
mod name_tests;
#[cfg(test)]
mod object_host_tests;
#[cfg(test)]
mod object_volume_tests;
#[cfg(test)]
mod past_file;
#[cfg(test)]
mod registry_view_tests;
#[cfg(test)]
mod same;
#[cfg(test)]
mod stopped_dumps;
#[cfg(test)]
mod strike_tests;
#[cfg(test)]
mod tag_tests;
#[cfg(test)]
mod wild_boards;

pub use lamp::Lamp;

//! Tests of the pages of files: calls on two files of a volume in memory, worked, stopped and failing, and changes of size
//! that are prepared.
#![tactic(auto)]

#[cfg(test)]
mod align_tests;
#[cfg(test)]
mod calls;
#[cfg(test)]
mod compare;
#[cfg(test)]
mod ended_calls;
#[cfg(test)]
mod ended_tests;
#[cfg(test)]
mod plain_file;
#[cfg(test)]
mod plan_tests;
#[cfg(test)]
mod plans;
#[cfg(test)]
mod row_tests;
#[cfg(test)]
mod rows;
#[cfg(test)]
mod space_tests;
#[cfg(test)]
mod volumes;
#[cfg(test)]
mod word_rows;
#[cfg(test)]
mod word_tests;

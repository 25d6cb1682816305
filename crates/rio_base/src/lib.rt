//! What every crate of rio stands on: the plain types, and the traits of the outside world.
#![tactic(auto)]

mod blocks;
mod disk_blocks;
mod failures;
mod formats;
mod host;
mod host_reading;
mod kind;
mod lists;
mod machine;
mod mem_words;
mod numbers;
mod places;
mod region_words;
mod sink;
mod source;
mod volume;
mod wild;

pub use blocks::Blocks;
pub use disk_blocks::DiskBlocks;
pub use failures::{DiskFail, Failed, ReadFail, RunFail, Stopped, VolFail};
pub use formats::{
    BLOCK_WORDS, IMAGE_MAGIC, PAGE_BYTES, PAGE_WORDS, REGION_MAGIC, UNDO_HEAD, VOLUME_MAGIC,
};
pub use host::Host;
pub use host_reading::{read_from, rose};
pub use kind::{DIRECTORY, FILE, FREE, Kind, REGION};
pub use lists::{BlockList, HeapList, InoList, Items, Octets, RangeList, Words};
pub use machine::Machine;
pub use mem_words::MemWords;
pub use numbers::number_of;
pub use places::{Block, Ino, Page, PageName, VolumeShape, WordAt};
pub use region_words::RegionWords;
pub use sink::Sink;
pub use source::Source;
pub use volume::Volume;
pub use wild::Wild;

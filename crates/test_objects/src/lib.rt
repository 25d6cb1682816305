//! Objects in memory for tests: a source, a sink and a host, two volumes and two regions, which meet the whole contracts of
//! their traits, and fail or stop exactly where they are told to. Beside them the volumes that tests begin with, a caller
//! of any machine, and plain slow readers of memory and disk.
#![tactic(auto)]

mod block_lists;
mod failing_calls;
mod faulty_region;
mod faulty_volume;
mod list_region;
mod list_volume;
mod mem_host;
mod mem_sink;
mod mem_source;
mod nodes;
mod saving;
mod shapes;
mod standing;
mod starting;
mod step_limit;
mod word_lists;

pub use block_lists::{ALL_WORDS, BLOCKS, put_block, zeros};
pub use faulty_region::FaultyRegion;
pub use faulty_volume::FaultyVolume;
pub use list_region::ListRegion;
pub use list_volume::ListVolume;
pub use mem_host::MemHost;
pub use mem_sink::MemSink;
pub use mem_source::MemSource;
pub use nodes::with_nodes;
pub use saving::save;
pub use shapes::{LARGE, SHAPE};
pub use standing::{Unread, reading_words, standing_words};
pub use starting::{fresh, start_again};

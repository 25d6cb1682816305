//! The two files of a pair, a memory image and a disk: loaded, worked on over a machine of a bench, and the image saved.
#![tactic(auto)]

mod ends;
mod failures;
mod image_file;
mod image_rules;
mod loading;
mod names;
mod running;
mod saving;
mod work;

pub use ends::PairEnd;
pub use failures::LoadFail;
pub use image_file::{PairImage, load_image};
pub use image_rules::board_of;
pub use loading::{LoadedPair, load_pair};
pub use names::{PairFile, PairNames};
pub use running::work_on_pair;
pub use work::PairWork;

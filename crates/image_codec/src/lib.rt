//! The memory image as a file: its words as bytes, the rules of its header, and the words of a fresh image and of a
//! fresh volume.
#![tactic(auto)]

mod fault;
mod image;
mod laws;
mod volume;

pub use fault::ImageFault;
pub use image::{fill_image, fresh_image, read_image, write_image};
pub use laws::write_and_read;
pub use volume::fresh_volume;

//! What the program is asked for.

use crate::file_name::FileName;

/// A command, with all that its words say. The file names of one command are all different.
#[derive(Drop)]
pub enum RioCommand {
    /// Writes a fresh memory image and a fresh volume.
    Format {
        image: FileName,
        disk: FileName,
        /// The image's frames, 32 to 8,192.
        frames: u32,
        /// The volume's blocks, from `3 + inodes / 32` to 32,768.
        blocks: u32,
        /// The volume's inodes, a multiple of 32 from 32 to 32,768.
        inodes: u32,
        /// The image's scratch pages, 1 to 64.
        scratch: u32,
    },
    /// Serves the requests of the input.
    Serve {
        image: FileName,
        disk: FileName,
        /// The machine stops before its next step once it has made this many.
        stop: Option<u64>,
    },
    /// Prints what the registry of a memory image holds.
    Registry {
        image: FileName,
    },
    /// Examines an image and a volume, and changes neither.
    Check {
        image: FileName,
        disk: FileName,
    },
    /// Serves drawn requests in memory alone.
    Drill {
        /// The generator's first number, up to 2,147,483,647.
        seed: u32,
        /// How many boots there are.
        boots: u32,
        /// How many requests are drawn for them, 1 to 100,000.
        requests: u32,
    },
}

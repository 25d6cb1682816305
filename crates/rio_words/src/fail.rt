//! Why words were not read as a command.

ghost use Rattle.std.specs.Prelude.{◌≡◌};

use clap::Error;
use clap::error::ErrorKind;
use std::alloc::AllocError;

/// Why there is no command.
#[derive(Clone, Copy, Debug, Drop, PartialEq, Eq)]
pub enum WordsFail {
    /// The words are no form of a command.
    Usage,
    /// There was no memory to read them.
    Memory,
}

impl From<AllocError> for WordsFail {
    ghost use Rattle.rio_words.specs.declared.fail.WordsFail.TheVariants.{Memory};

    ghost from_gives = { λ error made. made ≡ Memory };

    fn from(_error: AllocError) -> WordsFail {
        WordsFail::Memory
    }
}

impl From<Error> for WordsFail {
    ghost use Rattle.clap.specs.Words.{kind_of};
    ghost use Rattle.rio_words.specs.Clap.{fail_of};

    ghost from_gives = { λ error made. made ≡ fail_of (kind_of error) };

    fn from(error: Error) -> WordsFail {
        match error.kind() {
            ErrorKind::OutOfMemory => WordsFail::Memory,
            _ => WordsFail::Usage,
        }
    }
}

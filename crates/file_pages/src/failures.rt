//! Why bytes are not all stored.

ghost use Rattle.std.specs.Prelude.{◌≡◌};
ghost use Rattle.file_pages.specs.Failures.{bytes_handed, write_of_bytes};

use node_pages::WriteFail;
use rio_base::VolFail;

/// Why bytes were not all stored.
#[derive(Clone, Copy, Debug, PartialEq, Eq)]
pub enum BytesFail {
    /// The disk failed in this call, after so many of the bytes were stored, the first ones.
    Fault(u64),
    /// The machine is stopped.
    Stopped,
}

impl From<VolFail> for BytesFail {
    ghost from_gives = { λ fail made. made ≡ bytes_handed fail };

    fn from(fail: VolFail) -> BytesFail {
        match fail {
            VolFail::Fault => BytesFail::Fault(0),
            VolFail::Stopped => BytesFail::Stopped,
        }
    }
}

impl From<BytesFail> for WriteFail {
    ghost from_gives = { λ fail made. made ≡ write_of_bytes fail };

    fn from(fail: BytesFail) -> WriteFail {
        match fail {
            BytesFail::Fault(done) => WriteFail::Fault { done },
            BytesFail::Stopped => WriteFail::Stopped,
        }
    }
}

//! The bitmap of a volume, read whole.

ghost use Rattle.std.specs.Prelude.{◌≡◌, ◌==◌, ◌<◌, length};

/// The bitmap of a volume, a bit for each block that it may have.
#[derive(Drop)]
pub struct Bitmap {
    words: Vec<u64>,
    ghost long: { length words.items ≡ 512 },
}

impl Bitmap {
    ghost use Rattle.volume_check.specs.Bitmap.{held_bit};

    /// The bitmap that has these words.
    pub fn new(words: Vec<u64>) -> Bitmap
        requires { length words.items ≡ 512 }
        ensures { result.words.items ≡ words.items }
    {
        Bitmap { words }
    }

    /// Whether block `b` is marked used.
    pub fn is_marked(&self, b: u32) -> bool
        requires { b < 32768 }
        ensures { result ≡ (held_bit self.now b == 1) }
    {
        (self.words[(b / 64) as usize] >> (b % 64)) & 1 == 1
    }
}

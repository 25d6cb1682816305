//! Lists that contracts see as lists: each is made from a `Vec` and given back without taking memory.

ghost use Rattle.std.specs.Prelude.{◌≡◌};
ghost use Rattle.std.specs.List.{AllZip};

use crate::places::{Block, Ino};
use std::alloc::AllocError;
use std::marker::Model;

/// A `Vec` that contracts see as the list of its items, so that two of the same items are equal.
#[derive(Debug, Drop)]
pub struct Items<T> {
    items: Vec<T>,
}

impl<T> Model for Items<T> {
    ghost use Rattle.std.specs.Prelude.{List};

    ghost Value = { List T };

    ghost view = { λ a. a.items.items };
}

impl<T> Items<T> {
    /// The items, lent.
    pub fn as_slice(&self) -> &[T]
        ensures { result.now ≡ self.now }
    {
        self.items.as_slice()
    }

    /// The items, given back.
    pub fn into_vec(self) -> Vec<T>
        ensures { result.items ≡ self }
    {
        self.items
    }
}

impl<T> From<Vec<T>> for Items<T> {
    ghost from_gives = { λ items made. made ≡ items.items };

    fn from(items: Vec<T>) -> Items<T> {
        Items { items }
    }
}

impl<T: Clone> Clone for Items<T> {
    ghost is_clone = { AllZip T.is_clone };

    fn clone(&self) -> Result<Items<T>, AllocError> {
        let items = self.items.clone()?;
        Ok(Items { items })
    }
}

/// Bytes, as those of a path, a file or a line.
pub type Octets = Items<u8>;

/// Words of memory or of a region, each 8 bytes.
pub type Words = Items<u64>;

/// Blocks of a disk.
pub type BlockList = Items<Block>;

/// Inode numbers.
pub type InoList = Items<Ino>;

/// Blocks of a region's heap: the first unit of each, and how many units it has.
pub type HeapList = Items<(u32, u32)>;

/// Ranges of a region's words: the first word of each, and how many words it has.
pub type RangeList = Items<(u32, u32)>;

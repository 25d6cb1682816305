//! The first word of an entry.

ghost use Rattle.std.specs.Prelude.{◌≡◌, ◌==◌, ◌<◌, ◌^◌, [], ◌∷◌, codes, ⊤};
ghost use Rattle.rio_model.specs.Registry.{is_data, is_dirty, is_valid, tag_block, tag_of, with_dirty, without_dirty};

use bitflags::{Flag, Flags, bitflag_items};
use rio_base::Block;

/// A tag: three flags, and the number of the entry's block in the high half. An entry that isn't valid has tag 0.
#[derive(Clone, Copy, Debug, PartialEq, Eq)]
pub struct Tag(pub u64);

bitflag_items! {
    impl Tag: u64 {
        const VALID = 1;
        const DIRTY = 2;
        const DATA = 4;
    }
}

impl Flags for Tag {
    type Bits = u64;

    ghost exact = { ⊤ };

    ghost table = { (codes "VALID", 1) ∷ (codes "DIRTY", 2) ∷ (codes "DATA", 4) ∷ [] };

    ghost set_of = { λ t. t.0 };

    fn flags<'a>() -> &'a [Flag<Tag>] {
        Tag::FLAGS
    }

    fn bits(&self) -> u64 {
        self.0
    }

    fn from_bits_retain(bits: u64) -> Tag {
        Tag(bits)
    }
}

impl Tag {
    /// The tag of a valid entry of a block, which has a page of a file or region where `of_file` says so, and else metadata.
    pub fn of(block: Block, dirty: bool, of_file: bool) -> Tag
        ensures { result.0 ≡ tag_of block.0 dirty of_file }
    {
        let dirty_bit = if dirty { Tag::DIRTY.0 } else { 0 };
        let data_bit = if of_file { Tag::DATA.0 } else { 0 };
        Tag((u64::from(block.0) << 32) + (Tag::VALID.0 + (dirty_bit + data_bit)))
    }

    /// Whether the entry has a block.
    pub fn is_valid(self) -> bool
        ensures { result ≡ is_valid self.0 }
    {
        self.contains(Tag::VALID)
    }

    /// Whether the page may differ from the disk's block.
    pub fn is_dirty(self) -> bool
        ensures { result ≡ is_dirty self.0 }
    {
        self.contains(Tag::DIRTY)
    }

    /// Whether the page is one of a file or region, and not metadata.
    pub fn is_data(self) -> bool
        ensures { result ≡ is_data self.0 }
    {
        self.contains(Tag::DATA)
    }

    /// The block.
    pub fn block(self) -> Block
        ensures { result.0 ≡ tag_block self.0 }
    {
        Block((self.0 >> 32) as u32)
    }

    /// This tag, marked dirty.
    #[tactic(auto, using(crate::proofs::Flags::or_dirty))]
    pub fn dirtied(self) -> Tag
        ensures { result.0 ≡ with_dirty self.0 }
    {
        let mut tag = self;
        tag.insert(Tag::DIRTY);
        tag
    }

    /// This tag, marked clean.
    #[tactic(auto, using(crate::proofs::Flags::and_not_dirty))]
    pub fn cleaned(self) -> Tag
        ensures { result.0 ≡ without_dirty self.0 }
    {
        let mut tag = self;
        tag.remove(Tag::DIRTY);
        tag
    }
}

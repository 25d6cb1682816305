//! Tests of tags: valid is bit 0, dirty bit 1 and data bit 2, and the block is in the high half.

use crate::same::same;
use registry::Tag;
use rio_base::Block;

#[test]
fn a_tag_has_its_flags_and_its_block(rt: HostRuntime) {
    let tag = Tag::of(Block(9), true, false);
    let rows = [
        (tag, 0x0000_0009_0000_0003),
        (tag.cleaned(), 0x0000_0009_0000_0001),
        (tag.cleaned().dirtied(), 0x0000_0009_0000_0003),
        (
            Tag::of(Block(0xffff_ffff), false, true),
            0xffff_ffff_0000_0005,
        ),
    ];
    for (row, (came, due)) in rows.iter().enumerate() {
        same(&rt, "tags", row, came, &Tag(*due));
    }
    same(&rt, "block", 0, &tag.block(), &Block(9));
}

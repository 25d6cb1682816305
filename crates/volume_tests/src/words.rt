//! Words of a volume, looked up one by one. They lie in one list, block after block. A word past the end is 0.

ghost use Rattle.std.specs.Prelude.{◌≤◌};

/// The most bytes of a node.
pub(crate) const LARGEST_SIZE: u64 = 4_292_608;

/// Word `w` of block `b`.
pub(crate) fn word(words: &[u64], b: u64, w: u64) -> u64 {
    let at = b.saturating_mul(512).saturating_add(w);
    match words.get(at as usize) {
        Some(word) => *word,
        None => 0,
    }
}

/// Number `n` of a list with two in each word, by its word.
fn half(word: u64, n: u64) -> u64 {
    if n % 2 == 0 {
        word % 0x1_0000_0000
    } else {
        word >> 32
    }
}

/// Whether block `b` is marked.
pub(crate) fn is_marked(words: &[u64], b: u64) -> bool {
    (word(words, 1, b / 64) >> (b % 64)) % 2 == 1
}

/// The block of inode `i`.
pub(crate) fn inode_block(i: u64) -> u64 {
    2 + i.saturating_sub(1) / 32
}

/// Word `w` of inode `i`.
pub(crate) fn inode_word(words: &[u64], i: u64, w: u64) -> u64
    requires { w ≤ 15 }
{
    let k = i.saturating_sub(1) % 32;
    word(words, inode_block(i), 16 * k + w)
}

/// The kind of inode `i`.
pub(crate) fn kind(words: &[u64], i: u64) -> u64 {
    inode_word(words, i, 0)
}

/// Its size.
pub(crate) fn size(words: &[u64], i: u64) -> u64 {
    inode_word(words, i, 1)
}

/// How many pages it has. A size past the largest counts as that.
pub(crate) fn page_count(words: &[u64], i: u64) -> u64 {
    size(words, i).min(LARGEST_SIZE).div_ceil(4096)
}

/// The number of its indirect block.
pub(crate) fn indirect_number(words: &[u64], i: u64) -> u64 {
    half(inode_word(words, i, 14), 0)
}

/// The number of its page `page`.
pub(crate) fn page_number(words: &[u64], i: u64, page: u64) -> u64 {
    if page < 24 {
        return half(inode_word(words, i, 2 + page / 2), page);
    }
    half(
        word(words, indirect_number(words, i), (page - 24) / 2),
        page,
    )
}

/// Word `y` of its pages, in their order.
pub(crate) fn node_word(words: &[u64], i: u64, y: u64) -> u64 {
    word(words, page_number(words, i, y / 512), y % 512)
}

//! Damages of a volume that are drawn from a seed.

ghost use Rattle.std.specs.Prelude.{◌<◌};

/// Numbers that follow from a seed, each from 0 to 32,767.
#[derive(Drop)]
pub(crate) struct Draws(pub(crate) u32);

impl Draws {
    /// The next number.
    pub(crate) fn next(&mut self) -> u32
        ensures { result < 32768 }
    {
        let next = (1_103_515_245 * (self.0 as u64 % 0x8000_0000) + 12345) % 0x8000_0000;
        self.0 = next as u32;
        self.0 / 65536
    }
}

/// The blocks that are damaged: those that are reserved, and each kind of block that nodes have.
const DAMAGED: [u32; 16] = [0, 1, 2, 2, 2, 2, 2, 3, 4, 4, 6, 7, 8, 9, 9, 36];

/// A word that is drawn: its block, and its place in the block, one of the first words mostly.
pub(crate) fn place(draws: &mut Draws) -> (u32, u16) {
    let b = DAMAGED[(draws.next() % 16) as usize];
    let few = draws.next() % 4 != 0;
    let w = draws.next() % 512;
    let near = match (few, b) {
        (false, _) => w,
        (true, 0 | 1) => w % 4,
        (true, 2) => w % 82,
        (true, 4) => w % 24,
        (true, _) => w % 9,
    };
    (b, near as u16)
}

/// What a word becomes that is `old`, and where the word that stands eight words behind it is `later`.
pub(crate) fn damaged(draws: &mut Draws, old: u64, later: u64) -> u64 {
    match draws.next() % 8 {
        0 => draws.next() as u64 % 70,
        1 => old ^ (1 << (draws.next() % 64)),
        2 => old.wrapping_add(1),
        3 => old.wrapping_sub(1),
        4 => old.rotate_left(32),
        5 => draws.next() as u64 % 4,
        6 => later,
        _ => (draws.next() as u64 % 40) << 32 | draws.next() as u64 % 40,
    }
}

//! Requests, and the answers that must come.

/// A request.
#[derive(Clone, Copy)]
pub(crate) enum Ask {
    Mkdir(&'static [u8]),
    Create(&'static [u8]),
    Region(&'static [u8], u64, u64),
    RegionOf(&'static [u8]),
    Write(&'static [u8], u64, &'static [u8]),
    /// From an offset on, so many bytes of one value.
    WriteMany(&'static [u8], u64, u8, usize),
    Read(&'static [u8], u64, u64),
    Truncate(&'static [u8], u64),
    Unlink(&'static [u8]),
    Rmdir(&'static [u8]),
    Rename(&'static [u8], &'static [u8]),
    Stat(&'static [u8]),
    List(&'static [u8]),
    /// Makes so many files in an empty root directory, `/n00` and on, which get the least free inodes.
    Fill(u8),
    /// How many blocks are free.
    Free,
    /// The words of a block.
    Block(u32),
}

/// What it must answer.
#[derive(Clone, Copy)]
pub(crate) enum Want {
    Done,
    Number(u64),
    Bytes(&'static [u8]),
    Stat(u32, u8, u64),
    Names(&'static [&'static [u8]]),
    /// The names that [`Ask::Fill`] makes, so many of them from `n01` on.
    Numbered(u8),
    /// These words, and zeros behind them.
    Words(&'static [u64]),
    Refused(u8),
}

/// Requests one after the other, each with its answer.
pub(crate) type Row = (Ask, Want);

/// The path of file `n` of many, n being below 100.
pub(crate) fn numbered(n: u8) -> [u8; 4] {
    [b'/', b'n', b'0' + n / 10, b'0' + n % 10]
}

/// The path of a request, or none.
pub(crate) fn path_of(ask: Ask) -> &'static [u8] {
    match ask {
        Ask::Mkdir(path)
        | Ask::Create(path)
        | Ask::Region(path, _, _)
        | Ask::RegionOf(path)
        | Ask::Write(path, _, _)
        | Ask::WriteMany(path, _, _, _)
        | Ask::Read(path, _, _)
        | Ask::Truncate(path, _)
        | Ask::Unlink(path)
        | Ask::Rmdir(path)
        | Ask::Rename(path, _)
        | Ask::Stat(path)
        | Ask::List(path) => path,
        Ask::Fill(_) | Ask::Free | Ask::Block(_) => b"",
    }
}

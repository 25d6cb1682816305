//! Names of a directory's entries.

ghost use Rattle.std.specs.Prelude.{◌↔◌, All, IsTrue};
ghost use Rattle.rio_model.specs.Paths.{IsName, IsNameByte};

/// The longest name.
const NAME_BYTES: usize = 56;

/// Whether these bytes are a name: 1 to 56 bytes that may stand in one, and neither `.` nor `..`.
pub fn is_name(name: &[u8]) -> bool
    ensures { IsTrue result ↔ IsName name.now }
{
    if !name.iter().all(|b| is_name_byte(*b)) {
        return false;
    }
    may_be_name(name)
}

/// Whether bytes that may stand in a name are one. It looks at their count, and for `.` and `..`.
pub fn may_be_name(name: &[u8]) -> bool
    requires { All IsNameByte name.now }
    ensures { IsTrue result ↔ IsName name.now }
{
    if name.is_empty() || name.len() > NAME_BYTES {
        return false;
    }
    name != b".".as_slice() && name != b"..".as_slice()
}

/// Whether a byte may stand in a name: 0x21 to 0x7e, but no slash.
pub fn is_name_byte(b: u8) -> bool
    ensures { IsTrue result ↔ IsNameByte b }
{
    b'!' <= b && b <= b'~' && b != b'/'
}

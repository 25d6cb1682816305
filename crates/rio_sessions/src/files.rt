//! What the script does with the files of a session, and what it asks about them.

use crate::bytes::{put_bytes, same, tell_whether, word_at};
use crate::shelf::{Shelf, bytes_of};
use crate::words::FileWord;
use rio_base::Host;
use std::alloc::AllocError;
use test_scripts::{first_word, numbers, tell_line, tell_number};

impl<'a> Shelf<'a> {
    /// Does what a word says of the file that is named behind it.
    pub fn act(&mut self, word: FileWord, rest: &str, out: &mut Vec<u8>) -> Result<(), AllocError> {
        let (name, value) = first_word(rest);
        let name = String::from_str(self.alloc, name)?;
        self.act_on(word, &name, value, out)
    }

    /// Does what a word says of a file.
    fn act_on(
        &mut self,
        word: FileWord,
        name: &String,
        value: &str,
        out: &mut Vec<u8>,
    ) -> Result<(), AllocError> {
        match word {
            FileWord::Put => self.host.put(name, value.as_bytes()),
            FileWord::Patch => self.patch(name, value),
            FileWord::Cut => self.cut(name, value),
            FileWord::Lengthen => self.lengthen(name, value),
            FileWord::Keep => put_bytes(&mut self.kept, bytes_of(&self.host, name)),
            FileWord::Remove => {
                self.host.remove(name);
                Ok(())
            }
            FileWord::Same => self.tell_whether_same(name, out),
            FileWord::Size => self.tell_size(name, out),
            FileWord::Bytes => tell_line(out, bytes_of(&self.host, name)),
            FileWord::Word => self.tell_word(name, value, out),
        }
    }

    /// Writes bytes into a file.
    fn write_at(&mut self, name: &String, off: u64, bytes: &[u8]) -> Result<(), AllocError> {
        match self.host.write_at(name, off, bytes) {
            Ok(()) => Ok(()),
            Err(_) => Err(AllocError),
        }
    }

    /// Writes a word into a file, at the place of a word.
    fn patch(&mut self, name: &String, value: &str) -> Result<(), AllocError> {
        let [place, word, _] = numbers(value)?;
        self.write_at(name, place.saturating_mul(8), &word.to_le_bytes())
    }

    /// Takes all bytes of a file away but the first.
    fn cut(&mut self, name: &String, size: &str) -> Result<(), AllocError> {
        let [size, _, _] = numbers(size)?;
        let mut bytes = Vec::from_slice(self.alloc, bytes_of(&self.host, name))?;
        bytes.truncate(size as usize);
        self.host.put(name, bytes.as_slice())
    }

    /// Writes a zero as the last byte that a file of this size has.
    fn lengthen(&mut self, name: &String, size: &str) -> Result<(), AllocError> {
        let [size, _, _] = numbers(size)?;
        self.write_at(name, size.saturating_sub(1), b"\0")
    }

    /// Tells whether a file has the bytes that were kept.
    fn tell_whether_same(&self, name: &String, out: &mut Vec<u8>) -> Result<(), AllocError> {
        let is_same = same(bytes_of(&self.host, name), self.kept.as_slice());
        tell_whether(is_same, b"yes", b"no", out)
    }

    /// Tells how many bytes a file has.
    fn tell_size(&self, name: &String, out: &mut Vec<u8>) -> Result<(), AllocError> {
        match self.host.file(name) {
            Some(bytes) => tell_number(out, "", bytes.len() as u64),
            None => tell_line(out, b"no file"),
        }
    }

    /// Tells the eight bytes of a file's word.
    fn tell_word(&self, name: &String, place: &str, out: &mut Vec<u8>) -> Result<(), AllocError> {
        let [place, _, _] = numbers(place)?;
        match word_at(bytes_of(&self.host, name), place as usize) {
            Some(word) => tell_digits(word, out),
            None => tell_line(out, b"no word"),
        }
    }
}

/// Tells the bytes of a word, two digits each, the lowest one first.
fn tell_digits(word: u64, out: &mut Vec<u8>) -> Result<(), AllocError> {
    let digits = format!(in *out.allocator(); "{:016x}", word.swap_bytes())?;
    tell_line(out, digits.as_bytes())
}

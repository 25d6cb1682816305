//! The files that words name.

ghost use Rattle.std.specs.Prelude.{◌≡◌, ◌≢◌, ℕ, List, MatchOption, Some, codes};
ghost use Rattle.rio_words.specs.Clap.{found_in};
ghost use Rattle.rio_words.specs.Words.{AreFiles, IsFile};

use crate::file_name::is_file_name;
use clap::ArgMatches;

/// The files of a command on a memory image and a volume.
#[derive(Clone, Copy)]
pub struct Pair<'a> {
    /// The image's file.
    pub image: &'a str,
    /// The volume's file.
    pub disk: &'a str,
}

/// The file that an argument names.
pub fn file_of<'a>(matches: &ArgMatches<'a>, argument: &str) -> Option<&'a str>
    ensures { MatchOption result ((name : List ℕ) → IsFile (found_in matches.now) argument.now name → ⊥) (λ name. IsFile (found_in matches.now) argument.now name.now) }
{
    let word = matches.get_str(argument)?;
    if is_file_name(word) { Some(word) } else { None }
}

/// The two files that are named, where they are two.
pub fn pair_of<'a>(matches: &ArgMatches<'a>) -> Option<Pair<'a>>
    ensures { MatchOption result ((image disk : List ℕ) → AreFiles (found_in matches.now) image disk → ⊥) (λ pair. AreFiles (found_in matches.now) pair.image.now pair.disk.now) }
{
    let image = file_of(matches, "image")?;
    let disk = file_of(matches, "disk")?;
    if image == disk {
        return None;
    }
    Some(Pair { image, disk })
}

//! Words read as a command.

ghost use Rattle.std.specs.Prelude.{◌≡◌, ◌∷◌, ℕ, List, codes, IfOk};
ghost use Rattle.rio_words.specs.Words.{Begins, IsOnlyReading, IsReading, texts_of};

use crate::command::RioCommand;
use crate::drill_words::DRILL_OPTIONS;
use crate::fail::WordsFail;
use crate::format_words::FORMAT_OPTIONS;
use crate::matched::{check_of, drill_of, format_of, registry_of, serve_of};
use crate::matching::matches_of;
use crate::serve_words::SERVE_OPTIONS;
use std::alloc::Global;

/// The files of a command on an image and a volume.
const PAIR: [&str; 2] = ["image", "disk"];

/// The files of a command on an image alone.
const IMAGE: [&str; 1] = ["image"];

/// No options, and no files.
const NONE: [&str; 0] = [];

/// Reads the words behind the program's name. `Usage` is the answer exactly where they are no form of a command, and a command
/// is the only one that they are a form of.
pub fn read_words(alloc: Global, words: &Vec<String>) -> Result<RioCommand, WordsFail>
    ensures reading { IsReading (texts_of words.now.items) result }
    ensures only { IsOnlyReading (texts_of words.now.items) result }
{
    let words = words.as_slice();
    let Some(command) = words.first() else {
        return Err(WordsFail::Usage);
    };
    match command.as_str() {
        "format" => read_format(alloc, words),
        "serve" => read_serve(alloc, words),
        "registry" => read_registry(alloc, words),
        "check" => read_check(alloc, words),
        "drill" => read_drill(alloc, words),
        _ => Err(WordsFail::Usage),
    }
}

/// Reads words that begin with `format`.
fn read_format(alloc: Global, words: &[String]) -> Result<RioCommand, WordsFail>
    requires { Begins (codes "format") (texts_of words.now) }
    ensures { IsReading (texts_of words.now) result }
{
    let matches = matches_of(alloc, &FORMAT_OPTIONS, &PAIR, words)?;
    format_of(alloc, &matches)
}

/// Reads words that begin with `serve`.
fn read_serve(alloc: Global, words: &[String]) -> Result<RioCommand, WordsFail>
    requires { Begins (codes "serve") (texts_of words.now) }
    ensures { IsReading (texts_of words.now) result }
{
    let matches = matches_of(alloc, &SERVE_OPTIONS, &PAIR, words)?;
    serve_of(alloc, &matches)
}

/// Reads words that begin with `registry`.
fn read_registry(alloc: Global, words: &[String]) -> Result<RioCommand, WordsFail>
    requires { Begins (codes "registry") (texts_of words.now) }
    ensures { IsReading (texts_of words.now) result }
{
    let matches = matches_of(alloc, &NONE, &IMAGE, words)?;
    registry_of(alloc, &matches)
}

/// Reads words that begin with `check`.
fn read_check(alloc: Global, words: &[String]) -> Result<RioCommand, WordsFail>
    requires { Begins (codes "check") (texts_of words.now) }
    ensures { IsReading (texts_of words.now) result }
{
    let matches = matches_of(alloc, &NONE, &PAIR, words)?;
    check_of(alloc, &matches)
}

/// Reads words that begin with `drill`.
fn read_drill(alloc: Global, words: &[String]) -> Result<RioCommand, WordsFail>
    requires { Begins (codes "drill") (texts_of words.now) }
    ensures { IsReading (texts_of words.now) result }
{
    let matches = matches_of(alloc, &DRILL_OPTIONS, &NONE, words)?;
    drill_of(&matches)
}

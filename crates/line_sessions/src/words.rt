//! The words of the script, as tables.

/// What a line of the script says.
#[derive(Clone, Copy)]
pub(crate) enum Word {
    Nothing,
    Volume,
    Doomed,
    Request,
    GreatestRequest,
    Reply,
    Sink,
    Parse,
    Each,
    Lines,
    Texts,
}

/// Each word that a line begins with, and what it says.
pub(crate) static WORDS: [(&str, Word); 13] = [
    (">", Word::Request),
    ("parse", Word::Parse),
    ("lines", Word::Lines),
    ("reply", Word::Reply),
    ("", Word::Nothing),
    ("==", Word::Nothing),
    ("#", Word::Nothing),
    ("volume", Word::Volume),
    ("sink", Word::Sink),
    ("each", Word::Each),
    ("max>", Word::GreatestRequest),
    ("doomed", Word::Doomed),
    ("texts", Word::Texts),
];

/// A kind of reply.
#[derive(Clone, Copy)]
pub(crate) enum Form {
    Done,
    Number,
    Bytes,
    Stat,
    Names,
    Inos,
    Refusal,
    Fault,
}

/// The kinds of replies as the script has them.
pub(crate) static FORMS: [(&str, Form); 8] = [
    ("number", Form::Number),
    ("names", Form::Names),
    ("bytes", Form::Bytes),
    ("stat", Form::Stat),
    ("ok", Form::Done),
    ("inos", Form::Inos),
    ("err", Form::Refusal),
    ("fault", Form::Fault),
];

/// What a table has for a word.
pub(crate) fn looked_up<W: Copy>(table: &[(&str, W)], word: &str) -> Option<W> {
    for (written, meant) in table.iter() {
        if *written == word {
            return Some(*meant);
        }
    }
    None
}

/// A small number, or 0 where the word is none.
pub(crate) fn small(word: &str) -> u32 {
    word.parse::<u32>().unwrap_or(0)
}

/// A number of one byte, or 255 where the word is none.
pub(crate) fn octet(word: &str) -> u8 {
    word.parse::<u8>().unwrap_or(255)
}

//! Request lines and reply lines: what each line asks for, and how each reply is written.
#![tactic(auto)]

mod byte_step;
mod digit_count;
mod far_byte;
mod first_byte;
mod gathered;
mod hex_digits;
mod hex_runs;
mod hex_text;
mod lanes;
mod line_end;
mod lines;
mod number;
mod parse;
mod parts;
mod path;
mod piece;
mod reply_text;
mod spare;
mod text_room;
mod words;

pub use lines::{INPUT_LIMIT, LineFail, LineReader, NextLine};
pub use parse::{long_lines_mean_nothing, one_meaning, parse_line, parse_line_reusing};
pub use path::is_path;
pub use reply_text::{ROOM_BYTES, put_name, put_reply, write_reply, write_reply_in, write_text};
pub use spare::Spare;
pub use text_room::{put, put_number, send};

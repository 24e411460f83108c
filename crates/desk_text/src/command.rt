// What a line says.
ghost use Rattle.std.specs.Prelude.{◌≡◌};
ghost use Rattle.std.specs.Option.{option_map};
ghost use Rattle.desk_text.specs.Words.{first_word, after_word, trimmed, side_said, number_said};
ghost use Rattle.desk_text.specs.Commands.{ReadOf, alone, meant, load_said, ask_said, look_said, verb_with, text_said, without_end, line_text, line_said};

use crate::verb::Verb;
use crate::words::{number, side, split_word, trimmed};
use listing_text::words::Order;
use std::str;

// A longer line is no command.
const LONGEST: usize = 4_096;

// A command with what it takes; the folder is a part of the line.
#[derive(Clone, Copy, PartialEq, Eq, Debug)]
pub enum Command<'a> {
    // A line without a word.
    Nothing,
    Load { side: u8, folder: &'a str },
    Ask(Order),
    Strike,
    Wipe,
    Look { kind: usize, place: usize },
    Why,
    All,
    Help,
}

// A line that is no command.
#[derive(Clone, Copy, PartialEq, Eq, Debug)]
pub struct Malformed;

// A command that takes nothing more.
fn alone<'a>(command: Command<'a>, rest: &str) -> Result<Command<'a>, Malformed>
    ensures { ReadOf (alone (meant command.entry) (trimmed rest.now)) result }
{
    if trimmed(rest).is_empty() {
        Ok(command)
    } else {
        Err(Malformed)
    }
}

// A side and a folder.
fn load(rest: &str) -> Result<Command<'_>, Malformed>
    ensures { ReadOf (load_said (side_said (first_word rest.now)) (trimmed (after_word rest.now))) result }
{
    let (word, rest) = split_word(rest);
    let folder = trimmed(rest);
    if folder.is_empty() {
        return Err(Malformed);
    }
    Ok(Command::Load {
        side: side(word),
        folder,
    })
}

// An order, or none.
fn ask(rest: &str) -> Result<Command<'static>, Malformed>
    ensures { ReadOf (ask_said (trimmed rest.now)) result }
{
    let word = trimmed(rest);
    if word.is_empty() {
        return Ok(Command::Ask(Order::Branching));
    }
    match word.parse::<Order>() {
        Ok(order) => Ok(Command::Ask(order)),
        Err(_) => Err(Malformed),
    }
}

// A kind and a place.
fn look(rest: &str) -> Result<Command<'static>, Malformed>
    ensures { ReadOf (look_said (number_said (first_word rest.now)) (number_said (trimmed (after_word rest.now)))) result }
{
    let (word, rest) = split_word(rest);
    match (number(word), number(trimmed(rest))) {
        (Some(kind), Some(place)) => Ok(Command::Look { kind, place }),
        _ => Err(Malformed),
    }
}

// A verb, and what stands behind it.
fn read_text(text: &str) -> Result<Command<'_>, Malformed>
    ensures { ReadOf (text_said text.now) result }
{
    let (word, rest) = split_word(text);
    if word.is_empty() {
        return Ok(Command::Nothing);
    }
    match word.parse::<Verb>() {
        Ok(Verb::Load) => load(rest),
        Ok(Verb::Ask) => ask(rest),
        Ok(Verb::Strike) => alone(Command::Strike, rest),
        Ok(Verb::Wipe) => alone(Command::Wipe, rest),
        Ok(Verb::Look) => look(rest),
        Ok(Verb::Why) => alone(Command::Why, rest),
        Ok(Verb::All) => alone(Command::All, rest),
        Ok(Verb::Help) => alone(Command::Help, rest),
        Err(_) => Err(Malformed),
    }
}

// The line without its line feed, and the carriage return before that.
fn line_text(line: &[u8]) -> &[u8]
    ensures { result.now ≡ line_text line.now }
{
    without_end(b'\r', without_end(b'\n', line))
}

// The line without this byte at its end, if it stands there.
fn without_end(byte: u8, line: &[u8]) -> &[u8]
    ensures { result.now ≡ without_end byte line.now }
{
    match line {
        [text @ .., last] if *last == byte => text,
        _ => line,
    }
}

// Reads a line, with or without its line feed.
pub fn read_line(line: &[u8]) -> Result<Command<'_>, Malformed>
    ensures { ReadOf (line_said line.now) result }
{
    let text = line_text(line);
    if text.len() > LONGEST {
        return Err(Malformed);
    }
    match str::from_utf8(text) {
        Ok(text) => read_text(text),
        Err(_) => Err(Malformed),
    }
}

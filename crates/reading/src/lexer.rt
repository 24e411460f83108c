// Cuts a text into tokens, one at a time.
ghost use Rattle.std.specs.List.{take_while};
ghost use Rattle.reading.specs.Classes.{name_part};
ghost use Rattle.std.specs.Prelude.{◌≡◌, false, suc, ◌+◌, ◌<◌, ◌≤◌, length, drop};
ghost use Rattle.reading.specs.Lexical.{gap, run, front, word, lexed};
ghost use Rattle.reading.specs.Tokens.{Tells, TellsAt, Moves};

use crate::classes::{is_blank, is_name_part, is_small};
use crate::token::{Spot, Token};
use refusals::fault::{Fault, Text};

const LONGEST_NAME: usize = 32;

#[derive(Drop)]
pub(crate) struct Lexer<'a> {
    text: Text,
    bytes: &'a [u8],
    at: usize,
    ghost inside: { at ≤ length bytes.now },
}

// How many bytes at the front are blanks and comments.
fn gap(bytes: &[u8]) -> usize
    ensures { result ≡ gap false bytes.now }
{
    let mut comment = false;
    for (i, byte) in bytes.iter().enumerate() {
        if comment {
            comment = *byte != b'\n';
        } else if *byte == b'%' {
            comment = true;
        } else if !is_blank(char::from(*byte)) {
            return i;
        }
    }
    bytes.len()
}

// How many bytes at the front are letters, digits and underscores.
fn run(bytes: &[u8]) -> usize
    ensures { result ≡ length (take_while name_part bytes.now) }
{
    bytes
        .iter()
        .take_while(|byte| is_name_part(char::from(**byte)))
        .count()
}

impl<'a> Lexer<'a> {
    pub(crate) fn new(text: Text, bytes: &'a [u8]) -> Lexer<'a>
        ensures text { result.text ≡ text }
        ensures bytes { result.bytes.now ≡ bytes.now }
        ensures at { result.at ≡ 0 }
    {
        Lexer { text, bytes, at: 0 }
    }

    // The word that starts here, with the place where it ends.
    fn word(&self) -> Result<(Token<'a>, usize), Fault>
        requires { self.now.at < length self.now.bytes.now }
        ensures { TellsAt self.now.text self.now.at (word self.now.at (suc (run (drop (self.now.at + 1) self.now.bytes.now))) (drop self.now.at self.now.bytes.now)) result }
    {
        let at = self.at;
        let length = 1 + run(&self.bytes[at + 1..]);
        if length > LONGEST_NAME {
            return Err(Fault::LongName {
                text: self.text,
                at,
            });
        }
        let after = at + length;
        let word = &self.bytes[at..after];
        if word == b"not".as_slice() {
            return Ok((Token::Not, after));
        }
        Ok((Token::Name(word), after))
    }

    // The token that starts here, with the place where it ends.
    fn token(&self) -> Result<(Token<'a>, usize), Fault>
        requires { self.now.at < length self.now.bytes.now }
        ensures { TellsAt self.now.text self.now.at (front self.now.at (drop self.now.at self.now.bytes.now)) result }
    {
        let at = self.at;
        match char::from(self.bytes[at]) {
            ',' => Ok((Token::Comma, at + 1)),
            '.' => Ok((Token::Dot, at + 1)),
            ':' if self.bytes.get(at + 1) == Some(&b'-') => Ok((Token::Arrow, at + 2)),
            c if is_small(c) => self.word(),
            _ => Err(Fault::NoToken {
                text: self.text,
                at,
            }),
        }
    }

    // The next token with its place, or none at the end of the text.
    pub(crate) fn next(&mut self) -> Result<Option<Spot<'a>>, Fault>
        ensures tells { Tells self.old.text (lexed self.old.bytes.now self.old.at) self.new.at result }
        ensures moves { Moves self.old.at self.new.at result }
        ensures text { self.new.text ≡ self.old.text }
        ensures bytes { self.new.bytes ≡ self.old.bytes }
    {
        self.at += gap(&self.bytes[self.at..]);
        let at = self.at;
        if at == self.bytes.len() {
            return Ok(None);
        }
        let (token, after) = self.token()?;
        self.at = after;
        Ok(Some(Spot { token, at }))
    }
}

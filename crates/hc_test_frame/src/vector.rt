//! A vector: the name of a call, and its arguments.
//!
//! Words stand apart by one space. A text stands in quotes `'`, and `%` and two hexadecimal digits are
//! one byte there. After a text `*` and a number say how often its last byte stands, and a text that
//! follows at once goes on: `'bytes=0-0'*9'1'`. A word of digits is a number, and `-` is none.
ghost use Rattle.std.specs.Prelude.{◌<◌, IfOk};

use crate::fault::Fault;
use std::alloc::Global;

/// The most copies of a byte.
const MOST_COPIES: u64 = 1 << 20;

/// A vector.
#[derive(Drop)]
pub struct Vector {
    alloc: Global,
    name: String,
    call: String,
    arguments: Vec<Argument>,
}

/// An argument of a call.
#[derive(Drop)]
enum Argument {
    Text(Vec<u8>),
    Number(Option<u64>),
    Word(String),
}

impl Vector {
    /// The call's name, and behind a space a letter for each argument: `t` for a text, `n` for a number or
    /// for none, `w` for another word. So one comparison tells a call.
    pub fn call(&self) -> &str {
        self.call.as_str()
    }

    /// The call's name alone.
    pub fn name(&self) -> &str {
        self.name.as_str()
    }

    /// How many arguments there are.
    pub fn argument_count(&self) -> usize {
        self.arguments.len()
    }

    /// Where the arguments were made, for what a call makes.
    pub fn alloc(&self) -> Global {
        self.alloc
    }

    /// The text at this place among the arguments. Empty where another argument stands there.
    pub fn text(&self, at: usize) -> &[u8] {
        match self.arguments.get(at) {
            Some(Argument::Text(text)) => text.as_slice(),
            _ => &[],
        }
    }

    /// The number at this place, 0 where another argument stands there.
    pub fn number(&self, at: usize) -> u64 {
        self.option(at).unwrap_or(0)
    }

    /// The number at this place, if there is one.
    pub fn option(&self, at: usize) -> Option<u64> {
        match self.arguments.get(at) {
            Some(Argument::Number(number)) => *number,
            _ => None,
        }
    }

    /// The word at this place. Empty where another argument stands there.
    pub fn word(&self, at: usize) -> &str {
        match self.arguments.get(at) {
            Some(Argument::Word(word)) => word.as_str(),
            _ => "",
        }
    }

    fn push(&mut self, letter: char, argument: Argument) -> Result<(), Fault> {
        if self.arguments.is_empty() {
            self.call.push(' ')?;
        }
        self.call.push(letter)?;
        self.arguments.push(argument)?;
        Ok(())
    }

    /// Reads what stands between quotes. Where it goes on, it is a part of the text before.
    fn take_quoted(&mut self, piece: &str, goes_on: bool) -> Result<(), Fault> {
        if !goes_on {
            self.push('t', Argument::Text(Vec::new(self.alloc)))?;
        }
        let Some(Argument::Text(text)) = self.arguments.last_mut() else {
            return Err(Fault::BadQuoting);
        };
        let mut is_first = true;
        for part in piece.split('%') {
            if is_first {
                text.extend_from_slice(part.as_bytes())?;
            } else {
                unescape(part.as_bytes(), text)?;
            }
            is_first = false;
        }
        Ok(())
    }

    /// Reads what stands outside quotes.
    fn take_bare(&mut self, piece: &str) -> Result<(), Fault> {
        for word in piece.split(' ') {
            if self.name.is_empty() {
                self.name.push_str(word)?;
                self.call.push_str(word)?;
            } else if let Some(count) = word.strip_prefix('*') {
                self.repeat(number(count)?)?;
            } else if !word.is_empty() {
                self.take_word(word)?;
            }
        }
        Ok(())
    }

    fn take_word(&mut self, word: &str) -> Result<(), Fault> {
        if word == "-" {
            self.push('n', Argument::Number(None))
        } else if word.starts_with(|c: char| c.is_ascii_digit()) {
            self.push('n', Argument::Number(Some(number(word)?)))
        } else {
            let word = String::from_str(self.alloc, word)?;
            self.push('w', Argument::Word(word))
        }
    }

    /// Makes the last byte stand so often.
    fn repeat(&mut self, count: u64) -> Result<(), Fault> {
        let Some(Argument::Text(text)) = self.arguments.last_mut() else {
            return Err(Fault::BadNumber);
        };
        let byte = *text.last().ok_or(Fault::BadNumber)?;
        for _ in 1..count.min(MOST_COPIES) {
            text.push(byte)?;
        }
        Ok(())
    }
}

/// The vector that the line spells.
pub fn read_vector(alloc: Global, line: &str) -> Result<Vector, Fault> {
    let mut vector = Vector {
        alloc,
        name: String::new(alloc),
        call: String::new(alloc),
        arguments: Vec::new(alloc),
    };
    let mut in_quotes = false;
    let mut goes_on = false;
    for piece in line.split('\'') {
        if in_quotes {
            vector.take_quoted(piece, goes_on)?;
        } else {
            vector.take_bare(piece)?;
            goes_on = !piece.contains(' ');
        }
        in_quotes = !in_quotes;
    }
    if in_quotes {
        Ok(vector)
    } else {
        Err(Fault::BadQuoting)
    }
}

/// Appends what stands after a `%`.
fn unescape(text: &[u8], to: &mut Vec<u8>) -> Result<(), Fault> {
    if text.len() < 2 {
        return Err(Fault::BadQuoting);
    }
    to.push(digit_of(text[0])? * 16 + digit_of(text[1])?)?;
    to.extend_from_slice(&text[2..])?;
    Ok(())
}

/// What a hexadecimal digit tells.
fn digit_of(byte: u8) -> Result<u8, Fault>
    ensures { IfOk result (λ digit. digit < 16) }
{
    match byte {
        b'0'..=b'9' => Ok(byte - b'0'),
        b'a'..=b'f' => Ok(byte - b'a' + 10),
        _ => Err(Fault::BadQuoting),
    }
}

/// The number that a word is.
fn number(word: &str) -> Result<u64, Fault> {
    word.parse::<u64>().map_err(|_| Fault::BadNumber)
}

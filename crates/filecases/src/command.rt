// The commands of the table, one to a line.
use crate::draft::Size;
use std::str::{FromStr, SplitWhitespace};

#[derive(Drop)]
pub(crate) enum Command {
    // so many zero bytes
    Length(usize),
    // a legal file
    Drive { samples: usize, turns: usize },
    // a number at a place
    Put { at: usize, size: Size, value: usize },
    // a block's check
    Seal(usize),
    Read,
    Evaluate,
    // the samples, to so many places
    Samples(usize),
    // one turn by its number
    Turn(usize),
}

// Why a line is no command.
#[derive(Drop)]
pub(crate) enum ParseCommandError {
    Blank,
    Unknown,
}

// The number in the next word, or 0 where it is none.
fn number(words: &mut SplitWhitespace<'_>) -> usize {
    words.next().and_then(|word| word.parse().ok()).unwrap_or(0)
}

fn put(size: Size, words: &mut SplitWhitespace<'_>) -> Command {
    Command::Put {
        at: number(words),
        size,
        value: number(words),
    }
}

impl FromStr for Command {
    type Err = ParseCommandError;

    fn from_str(line: &str) -> Result<Command, ParseCommandError> {
        let mut words = line.split_whitespace();
        let name = words.next().ok_or(ParseCommandError::Blank)?;
        Ok(match name {
            "length" => Command::Length(number(&mut words)),
            "drive" => Command::Drive {
                samples: number(&mut words),
                turns: number(&mut words),
            },
            "byte" => put(Size::Byte, &mut words),
            "half" => put(Size::Half, &mut words),
            "word" => put(Size::Word, &mut words),
            "seal" => Command::Seal(number(&mut words)),
            "read" => Command::Read,
            "evaluate" => Command::Evaluate,
            "samples" => Command::Samples(number(&mut words)),
            "turn" => Command::Turn(number(&mut words)),
            _ => return Err(ParseCommandError::Unknown),
        })
    }
}

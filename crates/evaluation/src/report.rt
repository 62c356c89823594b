// What the program prints of an evaluation: a heading, then a line for each sample.
ghost use Rattle.std.specs.Prelude.{◌≡◌, ◌++◌, Some, codes, decimal};
ghost use Rattle.std.specs.Fmt.{signed_decimal};
ghost use Rattle.sections.specs.Meaning.{number_of};
ghost use Rattle.drivefile.specs.Reading.{reading};
ghost use Rattle.evaluation.specs.Evaluated.{left_in};
ghost use Rattle.evaluation.specs.Words.{heading_words, read_signed, width_of};

use crate::words::evaluate;
use drivefile::{Header, SectionChoice};
use sections::envelope::Envelope;
use sections::roll::Roll;
use sections::section::number;
use sections::stroke::Stroke;
use std::io::Write;
use std::{fmt, io};

// The header in words.
#[derive(Clone, Copy)]
struct Heading {
    header: Header,
}

// One sample's line: its number from 0 and its word, as the section reads it.
#[derive(Clone, Copy)]
struct Line {
    sample: usize,
    number: i64,
}

impl fmt::Display for Heading {
    ghost output = { λ h. Some (heading_words h.header) };

    fn fmt<W: fmt::Write>(&self, f: &mut fmt::Formatter<W>) -> fmt::Result {
        let Header {
            section,
            exponent,
            network,
            workers,
            samples,
            turns,
        } = self.header;
        let width = tile_width(exponent);
        write!(
            f,
            "{section}, tile width {width}, {network} network, workers {workers}, samples {samples}, turns {turns}"
        )
    }
}

impl fmt::Display for Line {
    ghost output = { λ l. Some (codes "out " ++ (decimal l.sample ++ (codes " " ++ signed_decimal l.number))) };

    fn fmt<W: fmt::Write>(&self, f: &mut fmt::Formatter<W>) -> fmt::Result {
        let Line { sample, number } = *self;
        write!(f, "out {sample} {number}")
    }
}

// The samples of a tile, 2^exponent; an exponent that no record has gives 0.
fn tile_width(exponent: u8) -> u32
    ensures { result ≡ width_of exponent }
{
    1_u32.checked_shl(exponent as u32).unwrap_or(0)
}

// A word as the chosen section reads it. A `match`, since the kinds are closed and each has types of its own.
fn section_number(section: SectionChoice, word: u32) -> i64
    ensures { result ≡ number_of (read_signed section) word }
{
    match section {
        SectionChoice::Stroke { .. } => number::<Stroke>(word),
        SectionChoice::Roll { .. } => number::<Roll>(word),
        SectionChoice::Envelope { .. } => number::<Envelope>(word),
    }
}

// Prints a record's words, which stand at the front of `words`, under a heading.
fn print_words<W: Write>(out: &mut W, header: Header, words: &[u32]) -> io::Result<()> {
    writeln!(out, "{}", Heading { header })?;
    for (sample, word) in words.iter().take(header.samples as usize).enumerate() {
        let number = section_number(header.section, *word);
        writeln!(out, "{}", Line { sample, number })?;
    }
    Ok(())
}

// Evaluates a file on a list of words that is lent, and prints its words, or its refusal.
pub fn print_evaluation<W: Write>(out: &mut W, file: &[u8], words: &mut [u32]) -> io::Result<()>
    ensures { words.new ≡ left_in (reading file.now) file.now words.old }
{
    match evaluate(file, words) {
        Ok(header) => print_words(out, header, words),
        Err(fault) => writeln!(out, "{}", fault.told()),
    }
}

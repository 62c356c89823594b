// Tests of the reader as a table: each line of standard input is a command that makes or damages a drive file in
// memory, or reads it and prints what the reader answered. The commands are listed in docs/testing.md.
#![tactic(auto)]

mod command;
mod draft;

use crate::command::{Command, ParseCommandError};
use crate::draft::Draft;
use drivefile::{MOST_ITEMS, Record};
use evaluation::print_evaluation;
use std::alloc::Global;
use std::io::{self, BufRead, BufReader};

// The file that the commands work on, and the words that it is evaluated on.
#[derive(Drop)]
struct Table {
    draft: Draft,
    words: Vec<u32>,
}

impl Table {
    // One line of the table.
    fn obey(&mut self, rt: &impl Print, alloc: Global, line: &str) -> anyhow::Result<()> {
        match line.parse() {
            Ok(Command::Length(length)) => self.draft.resize(length)?,
            Ok(Command::Drive { samples, turns }) => self.draft.drive(samples, turns)?,
            Ok(Command::Put { at, size, value }) => self.draft.put(at, size, value),
            Ok(Command::Seal(block)) => self.draft.seal(block),
            Ok(Command::Read) => self.read(rt, line)?,
            Ok(Command::Evaluate) => {
                print_evaluation(&mut io::writer(rt), self.draft.bytes(), &mut self.words)?
            }
            Ok(Command::Samples(places)) => self.samples(rt, alloc, line, places)?,
            Ok(Command::Turn(number)) => self.turn(rt, line, number)?,
            Err(ParseCommandError::Blank) => (),
            Err(ParseCommandError::Unknown) => println!(rt; "unknown command: {line}")?,
        }
        Ok(())
    }

    // Reads the draft and prints the line with the reader's answer.
    fn read(&self, rt: &impl Print, line: &str) -> io::Result<()> {
        match Record::read(self.draft.bytes()) {
            Ok(_) => println!(rt; "{line}: accepted"),
            Err(fault) => println!(rt; "{line}: {}", fault.told()),
        }
    }

    // Copies the samples to a list of so many places and prints how many of them were left alone.
    fn samples(
        &self,
        rt: &impl Print,
        alloc: Global,
        line: &str,
        places: usize,
    ) -> anyhow::Result<()> {
        let Ok(record) = Record::read(self.draft.bytes()) else {
            return Ok(());
        };
        let mut list = vec![in alloc; u32::MAX; places]?;
        if let Err(fault) = record.samples(&mut list) {
            println!(rt; "{line}: {}", fault.told())?;
        }
        // A sum of ones, since `filter` and `count` branch at each word.
        let left = list
            .iter()
            .map(|word| usize::from(*word == u32::MAX))
            .fold(0, usize::wrapping_add);
        println!(rt; "{line}: {left} left alone")?;
        Ok(())
    }

    // Prints the worker of a turn, or that there is none.
    fn turn(&self, rt: &impl Print, line: &str, number: usize) -> io::Result<()> {
        let Ok(record) = Record::read(self.draft.bytes()) else {
            return Ok(());
        };
        match record.turn(number) {
            Some(worker) => println!(rt; "{line}: worker {worker}"),
            None => println!(rt; "{line}: none"),
        }
    }
}

fn main(rt: HostRuntime) -> anyhow::Result<()> {
    let alloc = rt.alloc();
    let mut table = Table {
        draft: Draft::new(alloc),
        words: vec![in alloc; 0; MOST_ITEMS as usize]?,
    };
    for line in BufReader::new(alloc, rt.stdin())?.lines(alloc) {
        table.obey(&rt, alloc, &line?)?;
    }
    Ok(())
}

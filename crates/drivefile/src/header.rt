// The header: block 0 of the file, and its values as types.
ghost use Rattle.std.specs.Prelude.{◌≡◌, ◌+◌, ◌<◌, ◌≤◌, [], length, slice_index_or, Some, None, Ok, IfOk};
ghost use Rattle.drivefile.specs.Header.{InRange, blocks_for, header_of, header_values, in_range, kind_of, needed, network_of, none_at_fault, section_of, stroke_fault, values_fault, without_second};
ghost use Rattle.drivefile.specs.Names.{network_word, section_word};

use crate::block::{BLOCK, Block, Due, Kind};
use crate::bytes::le32;
use crate::items::{Items, SAMPLES_PER_BLOCK, TURNS_PER_BLOCK};
use faults::{Choice, Counter, RecordFault, Value};
use sections::envelope::Decay;
use sections::stroke::{REACH, Stops};
use std::fmt;

// The most samples, and the most turns, of a record.
pub const MOST_ITEMS: u32 = 65_536;

// Which section, with its start state and its parameters. The reader has tested that they are in range.
#[derive(Clone, Copy)]
pub enum SectionChoice {
    Stroke { start: i32, lower: i32, upper: i32 },
    Roll { start: u32, coefficient: u32 },
    Envelope { start: i32, decay: u32 },
}

// Which network joins the maps of a tile.
#[derive(Clone, Copy)]
pub enum NetworkChoice {
    Serial,
    KoggeStone,
}

// The header's values. A tile is 2^exponent samples wide.
#[derive(Clone, Copy)]
pub struct Header {
    pub section: SectionChoice,
    pub exponent: u8,
    pub network: NetworkChoice,
    pub workers: u8,
    pub samples: u32,
    pub turns: u32,
}

// The section that byte 8 names, before its values are read.
#[derive(Clone, Copy)]
enum SectionKind {
    Stroke,
    Roll,
    Envelope,
}

impl TryFrom<u8> for SectionKind {
    type Error = RecordFault;

    ghost try_from_gives = { λ byte r. r ≡ kind_of byte };

    fn try_from(byte: u8) -> Result<SectionKind, RecordFault> {
        match byte {
            1 => Ok(SectionKind::Stroke),
            2 => Ok(SectionKind::Roll),
            3 => Ok(SectionKind::Envelope),
            _ => Err(RecordFault::Choice(Choice::Section)),
        }
    }
}

impl TryFrom<u8> for NetworkChoice {
    type Error = RecordFault;

    ghost try_from_gives = { λ byte r. r ≡ network_of byte };

    fn try_from(byte: u8) -> Result<NetworkChoice, RecordFault> {
        match byte {
            1 => Ok(NetworkChoice::Serial),
            2 => Ok(NetworkChoice::KoggeStone),
            _ => Err(RecordFault::Choice(Choice::Network)),
        }
    }
}

impl fmt::Display for SectionChoice {
    ghost output = { λ s. Some (section_word s) };

    fn fmt<W: fmt::Write>(&self, f: &mut fmt::Formatter<W>) -> fmt::Result {
        f.write_str(match self {
            SectionChoice::Stroke { .. } => "stroke integrator",
            SectionChoice::Roll { .. } => "roll section",
            SectionChoice::Envelope { .. } => "thrust envelope",
        })
    }
}

impl fmt::Display for NetworkChoice {
    ghost output = { λ n. Some (network_word n) };

    fn fmt<W: fmt::Write>(&self, f: &mut fmt::Formatter<W>) -> fmt::Result {
        f.write_str(match self {
            NetworkChoice::Serial => "serial",
            NetworkChoice::KoggeStone => "Kogge-Stone",
        })
    }
}

impl Header {
    pub(crate) fn sample_items(self) -> Items
        ensures count { result.count ≡ self.samples }
        ensures per_block { result.per_block ≡ 125 }
    {
        Items {
            count: self.samples,
            per_block: SAMPLES_PER_BLOCK,
        }
    }

    pub(crate) fn turn_items(self) -> Items
        ensures count { result.count ≡ self.turns }
        ensures per_block { result.per_block ≡ 500 }
    {
        Items {
            count: self.turns,
            per_block: TURNS_PER_BLOCK,
        }
    }

    // The blocks that the samples take.
    pub(crate) fn sample_blocks(self) -> usize
        ensures value { result ≡ blocks_for self.samples 125 }
        ensures bound { result ≤ self.samples + 1 }
    {
        self.sample_items().blocks()
    }

    // The blocks of a record: the header, the samples', the turns'.
    fn block_count(self) -> usize
        ensures { result ≡ needed self.samples self.turns }
    {
        1 + self.sample_blocks() + self.turn_items().blocks()
    }
}

// The stroke integrator's start state and stops are in range.
fn test_stroke(start: i32, lower: i32, upper: i32) -> Result<(), RecordFault>
    ensures { result ≡ none_at_fault (stroke_fault start lower upper) (Ok tt) }
{
    if !(-REACH..=REACH).contains(&start) {
        return Err(RecordFault::Value(Value::Start));
    }
    let _ = Stops::new(lower, upper)?;
    Ok(())
}

impl SectionChoice {
    // The section, where its start state and its parameters are in range.
    fn in_range(self) -> Result<SectionChoice, RecordFault>
        ensures value { result ≡ in_range self }
        ensures values { IfOk result (λ it. values_fault it ≡ None) }
    {
        match self {
            SectionChoice::Stroke {
                start,
                lower,
                upper,
            } => test_stroke(start, lower, upper)?,
            SectionChoice::Roll { .. } => {}
            SectionChoice::Envelope { decay, .. } => {
                let _ = Decay::new(decay)?;
            }
        }
        Ok(self)
    }

    // The section in range, where it has no second parameter: its place in the header is zero.
    fn without_second(self, second: u32) -> Result<SectionChoice, RecordFault>
        ensures value { result ≡ without_second self second }
        ensures values { IfOk result (λ it. values_fault it ≡ None) }
    {
        let section = self.in_range()?;
        if second != 0 {
            return Err(RecordFault::Value(Value::Second));
        }
        Ok(section)
    }
}

impl SectionKind {
    // The section of this kind, from the words at bytes 20, 24 and 28.
    fn section(self, start: u32, first: u32, second: u32) -> Result<SectionChoice, RecordFault>
        ensures value { result ≡ section_of self start first second }
        ensures values { IfOk result (λ it. values_fault it ≡ None) }
    {
        let signed = start.cast_signed();
        match self {
            SectionKind::Stroke => SectionChoice::Stroke {
                start: signed,
                lower: first.cast_signed(),
                upper: second.cast_signed(),
            }
            .in_range(),
            SectionKind::Roll => SectionChoice::Roll {
                start,
                coefficient: first,
            }
            .without_second(second),
            SectionKind::Envelope => SectionChoice::Envelope {
                start: signed,
                decay: first,
            }
            .without_second(second),
        }
    }
}

// The header's values, in the order of their tests. `blocks` counts those of the whole file.
fn header_values(bytes: &[u8; BLOCK], blocks: usize) -> Result<Header, RecordFault>
    ensures value { result ≡ header_values blocks bytes.now }
    ensures range { IfOk result InRange }
{
    let kind = SectionKind::try_from(bytes[8])?;
    let exponent = bytes[9];
    if !(2..=6).contains(&exponent) {
        return Err(RecordFault::Choice(Choice::Exponent));
    }
    let network = NetworkChoice::try_from(bytes[10])?;
    let workers = bytes[11];
    if !(1..=8).contains(&workers) {
        return Err(RecordFault::Choice(Choice::Workers));
    }
    let samples = le32(bytes, 12);
    if samples > MOST_ITEMS {
        return Err(RecordFault::Counter(Counter::Samples));
    }
    let turns = le32(bytes, 16);
    if turns > MOST_ITEMS {
        return Err(RecordFault::Counter(Counter::Turns));
    }
    let section = kind.section(le32(bytes, 20), le32(bytes, 24), le32(bytes, 28))?;
    let header = Header {
        section,
        exponent,
        network,
        workers,
        samples,
        turns,
    };
    if blocks != header.block_count() {
        return Err(RecordFault::Blocks);
    }
    Ok(header)
}

// The header of a file, from its blocks.
pub(crate) fn read_header(blocks: &[[u8; BLOCK]]) -> Result<Header, RecordFault>
    requires { 1 ≤ length blocks.now }
    ensures value { result ≡ header_of (length blocks.now) (slice_index_or blocks.now 0 []) }
    ensures range { IfOk result InRange }
{
    let bytes = &blocks[0];
    let block = Block { number: 0, bytes };
    block.test(Due {
        kind: Kind::Header,
        count: 0,
        used: 24,
    })?;
    header_values(bytes, blocks.len())
}

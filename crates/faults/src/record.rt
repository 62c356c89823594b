// Faults of the record that a file's blocks hold: values of the header out of range, and turns of unknown workers.
ghost use Rattle.std.specs.Prelude.{◌≡◌};
ghost use Rattle.faults.specs.Told.{record_told};
ghost use Rattle.faults.specs.declared.record.RecordFault.TheVariants.{Block};

use crate::block::BlockFault;
use crate::refusal::{Layer, Refusal};

// The header's choices, each by its byte.
#[derive(Clone, Copy, Debug)]
pub enum Choice {
    Section = 8,
    Exponent = 9,
    Network = 10,
    Workers = 11,
}

// The header's counts, each by the byte at which it begins.
#[derive(Clone, Copy, Debug)]
pub enum Counter {
    Samples = 12,
    Turns = 16,
}

// The start state and the section's parameters, each by the byte at which it begins.
#[derive(Clone, Copy, Debug)]
pub enum Value {
    Start = 20,
    First = 24,
    Second = 28,
}

#[derive(Clone, Copy, Debug)]
pub enum RecordFault {
    // a fault of a block, whole
    Block(BlockFault),
    // section, exponent, network or number of workers outside its range
    Choice(Choice),
    // number of samples or turns above 65,536
    Counter(Counter),
    // start state or parameter outside its range
    Value(Value),
    // the file has not as many blocks as the counts need
    Blocks,
    // a turn names a worker that the record does not have
    Worker { block: usize, byte: usize },
}

// By hand, since a derived one has no contract and the reader's names the fault that `?` makes.
impl From<BlockFault> for RecordFault {
    ghost from_gives = { λ e r. r ≡ Block e };

    fn from(below: BlockFault) -> RecordFault {
        RecordFault::Block(below)
    }
}

impl RecordFault {
    // The fault's row of the table of refusals. No `From`, whose call would not say that a table is looked up.
    pub fn told(&self) -> Refusal
        ensures { result ≡ record_told self.now }
    {
        let (code, block, byte) = match *self {
            RecordFault::Block(fault) => return fault.told(),
            RecordFault::Choice(choice) => (5, 0, choice as usize),
            RecordFault::Counter(counter) => (6, 0, counter as usize),
            RecordFault::Value(value) => (7, 0, value as usize),
            RecordFault::Blocks => (8, 0, Counter::Samples as usize),
            RecordFault::Worker { block, byte } => (9, block, byte),
        };
        Refusal {
            code,
            layer: Layer::Record,
            block,
            byte,
        }
    }
}

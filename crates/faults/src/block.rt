// Faults of one block of a drive file, and of the file's length.
ghost use Rattle.std.specs.Prelude.{◌≡◌};
ghost use Rattle.faults.specs.Told.{block_told, refusal};
ghost use Rattle.faults.specs.declared.refusal.Layer.TheVariants.{Block};

use crate::refusal::{Layer, Refusal};

// The parts of a block's frame that are due, each by the byte at which it begins: its kind, its number, its item count
// and two zero bytes.
#[derive(Clone, Copy, Debug)]
pub enum Field {
    Kind = 0,
    Number = 2,
    Count = 4,
    Zero = 6,
}

#[derive(Clone, Copy, Debug)]
pub enum BlockFault {
    // the file is empty, ends inside a block, or has too many blocks
    Length,
    // the stored check is not the block's
    Check { block: usize },
    // a part of the frame is not the one due
    Frame { block: usize, field: Field },
    // a filling byte is not zero
    Filling { block: usize, byte: usize },
}

impl BlockFault {
    // The fault's row of the table of refusals. No `From`, whose call would not say that a table is looked up.
    pub fn told(&self) -> Refusal
        ensures { result ≡ block_told self.now }
    {
        match *self {
            BlockFault::Length => row(1, 0, 0),
            BlockFault::Check { block } => row(2, block, 510),
            BlockFault::Frame { block, field } => row(3, block, field as usize),
            BlockFault::Filling { block, byte } => row(4, block, byte),
        }
    }
}

// A row of the block layer.
fn row(code: u8, block: usize, byte: usize) -> Refusal
    ensures { result ≡ refusal code Block block byte }
{
    Refusal {
        code,
        layer: Layer::Block,
        block,
        byte,
    }
}

// One block: its check, its frame and its filling, each tested in turn.
ghost use Rattle.std.specs.Prelude.{◌≡◌, ◌+◌, ◌-◌, ◌<◌, ◌≤◌, false, ◌||◌, length, nat_le};
ghost use Rattle.std.specs.List.{fold, position};
ghost use Rattle.drivefile.specs.Block.{block_test, filling, first_from, frame};

use crate::bytes::le16;
use crate::check::check;
use faults::{BlockFault, Field};
use std::ops::Range;

// The bytes of a block.
pub(crate) const BLOCK: usize = 512;

// Where a block's payload begins, and where its check stands after it.
pub(crate) const PAYLOAD: usize = 8;

pub(crate) const CHECK: usize = 510;

// What a block holds, by the number that it begins with.
#[derive(Clone, Copy)]
pub(crate) enum Kind {
    Header = 1,
    Samples = 2,
    Turns = 3,
}

// What is due in a block: its kind, its item count, and how many bytes of its payload the items take.
#[derive(Clone, Copy)]
pub(crate) struct Due {
    pub(crate) kind: Kind,
    pub(crate) count: usize,
    pub(crate) used: usize,
}

// A block of a file: its number, which is below the most that a file has, and its bytes.
#[derive(Clone, Copy)]
pub(crate) struct Block<'a> {
    pub(crate) number: usize,
    pub(crate) bytes: &'a [u8; BLOCK],
    ghost counted: { number < 658 },
}

impl Block<'_> {
    // Kind, number, item count and zero bytes are those due.
    fn test_frame(&self, due: Due) -> Result<(), BlockFault>
        ensures { result ≡ frame self.now.number due self.now.bytes.now }
    {
        let bytes = self.bytes;
        let field = if le16(bytes, 0) != due.kind as u32 {
            Field::Kind
        } else if le16(bytes, 2) as usize != self.number {
            Field::Number
        } else if le16(bytes, 4) as usize != due.count {
            Field::Count
        } else if le16(bytes, 6) != 0 {
            Field::Zero
        } else {
            return Ok(());
        };
        Err(BlockFault::Frame {
            block: self.number,
            field,
        })
    }

    // The payload after the bytes used is zero.
    fn test_filling(&self, due: Due) -> Result<(), BlockFault>
        requires { due.used ≤ 502 }
        ensures { result ≡ filling self.now.number due self.now.bytes.now }
    {
        let bytes = self.bytes;
        match first_from(bytes, 1, PAYLOAD + due.used..CHECK) {
            Some(byte) => Err(BlockFault::Filling {
                block: self.number,
                byte,
            }),
            None => Ok(()),
        }
    }

    // The block is framed and filled as is due: check, frame, filling.
    pub(crate) fn test(&self, due: Due) -> Result<(), BlockFault>
        requires { due.used ≤ 502 }
        ensures { result ≡ block_test self.now.number due self.now.bytes.now }
    {
        let bytes = self.bytes;
        if check(bytes) != le16(bytes, CHECK) {
            return Err(BlockFault::Check { block: self.number });
        }
        self.test_frame(due)?;
        self.test_filling(due)
    }
}

// Whether a byte is at or above `limit`. It looks at them all, many at a time: with `position` alone, which looks at one
// after another, reading a file takes nearly twice as long.
fn any_from(bytes: &[u8], limit: u8) -> bool
    ensures { result ≡ fold (λ any byte. any || nat_le limit byte) false bytes.now }
{
    bytes.iter().fold(false, |any, byte| any | (*byte >= limit))
}

// Where the first byte at or above `limit` stands.
fn place_from(bytes: &[u8], limit: u8) -> Option<usize>
    ensures { result ≡ position (nat_le limit) bytes.now }
{
    if any_from(bytes, limit) {
        bytes.iter().position(|byte| *byte >= limit)
    } else {
        None
    }
}

// The first of some places whose byte is at or above `limit`.
pub(crate) fn first_from(bytes: &[u8], limit: u8, places: Range<usize>) -> Option<usize>
    requires within { places.end ≤ length bytes.now }
    requires forward { places.start ≤ places.end }
    ensures { result ≡ first_from limit bytes.now places.start (places.end - places.start) }
{
    let from = places.start;
    let place = place_from(&bytes[places], limit)?;
    Some(from + place)
}

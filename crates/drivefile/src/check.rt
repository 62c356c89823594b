// The check of a block.
ghost use Rattle.std.specs.Prelude.{◌≡◌, ◌+◌, ◌<◌, ◌^◌};
ghost use Rattle.drivefile.specs.Block.{check_of, weighted_sum};
ghost use Rattle.drivefile.specs.Columns.{with_number};

use crate::block::{BLOCK, CHECK};
use crate::bytes::le16;

// The check takes a block as 32 rows of 8 numbers: a chain over the 255 numbers takes twice as long.
const COLUMNS: usize = 8;

const ROW_BYTES: usize = 2 * COLUMNS;

// A column's numbers so far, row by row: their sum, and the total of that sum after each of them.
#[derive(Clone, Copy, Default)]
struct Column {
    sum: u32,
    total: u32,
}

impl Column {
    fn add(&mut self, number: u32)
        requires { self.old.total + (self.old.sum + number) < 2 ^ 32 }
        ensures { self.new ≡ with_number self.old number }
    {
        self.sum += number;
        self.total += self.sum;
    }
}

// The sum of (i + 1) × w(i) over a block's first 255 16-bit numbers. In column j, the total has row r 32 - r times, so
// 257 + j times the sum less 8 times the total has it 8 r + j + 1 times. The last number of all is the check itself.
fn weighted_sum(block: &[u8; BLOCK]) -> u32
    ensures { result ≡ weighted_sum block.now }
{
    let mut columns = [Column::default(); COLUMNS];
    for row in block.as_chunks::<ROW_BYTES>().0 {
        for (j, column) in columns.iter_mut().enumerate() {
            column.add(le16(row, 2 * j));
        }
    }
    let mut sum = 0;
    for (j, column) in columns.iter().enumerate() {
        sum += (257 + j as u32) * column.sum - 8 * column.total;
    }
    sum - 256 * le16(block, CHECK)
}

// The check of a block: that sum modulo 65,521.
pub(crate) fn check(block: &[u8; BLOCK]) -> u32
    ensures { result ≡ check_of block.now }
{
    weighted_sum(block) % 65_521
}

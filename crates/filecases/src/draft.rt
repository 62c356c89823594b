// A drive file in the making: bytes that can be set anywhere, and blocks whose check can be written anew. It shares
// nothing with the reader that it tries, so its kinds and sizes are its own.
ghost use Rattle.std.specs.Prelude.{◌<◌};

use std::alloc::{AllocError, Global};

// The bytes of a block.
const BLOCK: usize = 512;

// A number's size in bytes.
#[derive(Clone, Copy)]
pub(crate) enum Size {
    Byte = 1,
    Half = 2,
    Word = 4,
}

// What a block holds.
#[derive(Clone, Copy)]
enum Kind {
    Header = 1,
    Samples = 2,
    Turns = 3,
}

// Items of one kind, so many of them a block.
#[derive(Clone, Copy)]
struct Items {
    kind: Kind,
    count: usize,
    per_block: usize,
    ghost some: { 0 < per_block },
}

impl Items {
    fn blocks(self) -> usize {
        self.count.div_ceil(self.per_block)
    }
}

// Puts a number's low bytes at a place, little-endian, as far as there is room.
fn put(bytes: &mut [u8], at: usize, size: Size, value: usize) {
    if let Some(places) = bytes.get_mut(at..) {
        let number = value.to_le_bytes();
        for (place, byte) in places.iter_mut().zip(&number[..size as usize]) {
            *place = *byte;
        }
    }
}

// The check of the block that these bytes begin with: the sum of its first 255 numbers, each times its place from 1,
// modulo 65,521. Where the file ends within one of them, so that no whole pair is there, it has no place for a check
// either. The sum is at most 65,535 times 32,640, which fits. A `fold`, since `sum` asks for a bound of the terms, and
// that goal stayed open.
fn check(bytes: &[u8]) -> usize {
    let (pairs, _) = bytes.as_chunks::<2>();
    let sum = pairs
        .iter()
        .zip(1u16..256)
        .map(|(pair, place)| u32::from(u16::from_le_bytes(*pair)) * u32::from(place))
        .fold(0, u32::wrapping_add);
    (sum % 65_521) as usize
}

#[derive(Drop)]
pub(crate) struct Draft {
    bytes: Vec<u8>,
}

impl Draft {
    pub(crate) fn new(alloc: Global) -> Draft {
        Draft {
            bytes: Vec::new(alloc),
        }
    }

    pub(crate) fn bytes(&self) -> &[u8] {
        &self.bytes
    }

    // The bytes from a block on, none where it is past the end.
    fn block(&mut self, number: usize) -> &mut [u8] {
        let start = self.bytes.len().min(number.saturating_mul(BLOCK));
        &mut self.bytes[start..]
    }

    // So many zero bytes, in room for a power of two of them: alone, `resize` would ask for twice the old room where a
    // file is only a little longer.
    pub(crate) fn resize(&mut self, length: usize) -> Result<(), AllocError> {
        let room = length.checked_next_power_of_two().ok_or(AllocError)?;
        self.bytes.clear();
        self.bytes.reserve_exact(room)?;
        self.bytes.resize(length, 0)
    }

    // Puts a number at a place of the file.
    pub(crate) fn put(&mut self, at: usize, size: Size, value: usize) {
        put(&mut self.bytes, at, size, value);
    }

    // Writes a block's check.
    pub(crate) fn seal(&mut self, number: usize) {
        let block = self.block(number);
        put(block, 510, Size::Half, check(block));
    }

    // Writes a block's kind, its number and how many items it holds.
    fn frame(&mut self, kind: Kind, number: usize, items: usize) {
        let block = self.block(number);
        put(block, 0, Size::Half, kind as usize);
        put(block, 2, Size::Half, number);
        put(block, 4, Size::Half, items);
    }

    // Frames and seals the blocks of these items, from block `first` on: `left` is what is still to come at each.
    fn fill(&mut self, items: Items, first: usize) {
        let remaining = (1..=items.count).rev().step_by(items.per_block);
        for (number, left) in (first..).zip(remaining) {
            self.frame(items.kind, number, left.min(items.per_block));
            self.seal(number);
        }
    }

    // A legal file of so many samples and turns, all zero: stroke integrator, tile width 4, serial network, 2 workers,
    // start 0, stops -10 and 10.
    pub(crate) fn drive(&mut self, samples: usize, turns: usize) -> Result<(), AllocError> {
        let samples = Items {
            kind: Kind::Samples,
            count: samples,
            per_block: 125,
        };
        let turns = Items {
            kind: Kind::Turns,
            count: turns,
            per_block: 500,
        };
        let first_of_turns = samples.blocks().saturating_add(1);
        let blocks = first_of_turns.saturating_add(turns.blocks());
        self.resize(blocks.saturating_mul(BLOCK))?;
        self.frame(Kind::Header, 0, 0);
        self.put(8, Size::Byte, 1);
        self.put(9, Size::Byte, 2);
        self.put(10, Size::Byte, 1);
        self.put(11, Size::Byte, 2);
        self.put(12, Size::Word, samples.count);
        self.put(16, Size::Word, turns.count);
        self.put(24, Size::Word, (-10_isize).cast_unsigned());
        self.put(28, Size::Word, 10);
        self.seal(0);
        self.fill(samples, 1);
        self.fill(turns, first_of_turns);
        Ok(())
    }
}

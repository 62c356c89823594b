// The reader's tests over a whole file: its length, its header, then each later block.
ghost use Rattle.std.specs.Prelude.{◌≡◌, ◌+◌, ◌-◌, ◌*◌, ◌/◌, ◌^◌, ◌<◌, ◌≤◌, min, true, false, length, IfOk, MatchResult};
ghost use Rattle.std.specs.Simd.{first_chunks};
ghost use Rattle.drivefile.specs.Header.{InRange};
ghost use Rattle.drivefile.specs.Reading.{later_block, legal_length, reading, rest_test, sample_block, turn_block};
ghost use Rattle.faults.specs.declared.block.BlockFault.TheVariants.{Length};

use crate::block::{BLOCK, Block, Due, Kind, PAYLOAD, first_from};
use crate::header::{Header, read_header};
use faults::{BlockFault, RecordFault};

// The blocks of the longest record: the header, 525 of samples and 132 of turns.
const MOST_BLOCKS: usize = 658;

// The bytes of the longest file.
pub const MOST_BYTES: usize = BLOCK * MOST_BLOCKS;

// The blocks of a file: a whole number of them, from 1 to the most that a record takes.
fn blocks_of(file: &[u8]) -> Result<&[[u8; BLOCK]], BlockFault>
    ensures { MatchResult result (λ it. (legal_length (length file.now) ≡ true) × (it.now ≡ first_chunks 512 (length file.now / 512) file.now)) (λ fault. (legal_length (length file.now) ≡ false) × (fault ≡ Length)) }
{
    match file.as_chunks() {
        (blocks, []) if (1..=MOST_BLOCKS).contains(&blocks.len()) => Ok(blocks),
        _ => Err(BlockFault::Length),
    }
}

// A block of samples. Here and below a block and the header stay apart: one of them would only move before the dot.
fn test_samples(block: &Block, header: Header) -> Result<(), RecordFault>
    ensures { result ≡ sample_block header block.now.number block.now.bytes.now }
{
    let count = header
        .sample_items()
        .in_block(block.number.saturating_sub(1));
    block.test(Due {
        kind: Kind::Samples,
        count,
        used: 4 * count,
    })?;
    Ok(())
}

// A block of turns: each names a worker below W.
fn test_turns(block: &Block, header: Header) -> Result<(), RecordFault>
    ensures { result ≡ turn_block header block.now.number block.now.bytes.now }
{
    let before = block.number.saturating_sub(1 + header.sample_blocks());
    let count = header.turn_items().in_block(before);
    block.test(Due {
        kind: Kind::Turns,
        count,
        used: count,
    })?;
    let bytes = block.bytes;
    match first_from(bytes, header.workers, PAYLOAD..PAYLOAD + count) {
        Some(byte) => Err(RecordFault::Worker {
            block: block.number,
            byte,
        }),
        None => Ok(()),
    }
}

// A block after the header: the samples' blocks come first.
fn test_later(block: &Block, header: Header) -> Result<(), RecordFault>
    ensures { result ≡ later_block header block.now.number block.now.bytes.now }
{
    if block.number <= header.sample_blocks() {
        test_samples(block, header)
    } else {
        test_turns(block, header)
    }
}

// Every block after the header, in order, from number 1 on. The rest of the list is gone over by its places: of an iterator that
// skips the first a proof knows no item by its place.
fn test_rest(blocks: &[[u8; BLOCK]], header: Header) -> Result<(), RecordFault>
    requires some { 1 ≤ length blocks.now }
    requires most { length blocks.now ≤ 658 }
    ensures { result ≡ rest_test header blocks.now }
{
    let rest = &blocks[1..];
    for (i, bytes) in rest.iter().enumerate() {
        let number = i + 1;
        test_later(&Block { number, bytes }, header)?;
    }
    Ok(())
}

// The header of a file that passes every test, or the first fault.
pub(crate) fn test_file(file: &[u8]) -> Result<Header, RecordFault>
    ensures value { result ≡ reading file.now }
    ensures range { IfOk result InRange }
{
    let blocks = blocks_of(file)?;
    let header = read_header(blocks)?;
    test_rest(blocks, header)?;
    Ok(header)
}

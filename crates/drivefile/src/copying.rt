// The samples of a file's blocks, copied to a list.
ghost use Rattle.std.specs.Prelude.{◌≡◌, ◌≤◌, length};
ghost use Rattle.drivefile.specs.Items.{block_words, samples_in};
ghost use Rattle.drivefile.specs.Header.{blocks_for};

use crate::block::{BLOCK, PAYLOAD};
use crate::bytes::le32;
use crate::items::SAMPLES_PER_BLOCK;
use std::array;

// The words of a block's payload.
fn block_words(block: &[u8; BLOCK]) -> [u32; SAMPLES_PER_BLOCK]
    ensures { result ≡ block_words block.now }
{
    array::from_fn(|i| le32(block, PAYLOAD + 4 * i))
}

// Copies the samples to all of `out`, from the blocks that hold them: the full blocks, then the last, where it is not full (one
// loop for both takes a fifth longer). Places are named by number: what is written through `chunks_mut` no proof knows.
#[tactic(auto, using(crate::proofs::Rounds::copied_whole))]
pub(crate) fn copy_samples(blocks: &[[u8; BLOCK]], out: &mut [u32])
    requires { length blocks.now ≡ blocks_for (length out.old) 125 }
    ensures { out.new ≡ samples_in blocks.now (length out.old) }
{
    let full = out.len() / SAMPLES_PER_BLOCK;
    for (number, block) in blocks[..full].iter().enumerate() {
        let first = SAMPLES_PER_BLOCK * number;
        out[first..first + SAMPLES_PER_BLOCK].copy_from_slice(&block_words(block));
    }
    if let Some(last) = blocks.get(full) {
        let rest = &mut out[SAMPLES_PER_BLOCK * full..];
        rest.copy_from_slice(&block_words(last)[..rest.len()]);
    }
}

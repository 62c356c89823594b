// A record: a drive file that passed every test, borrowed, with its header's values.
ghost use Rattle.std.specs.Prelude.{◌≡◌, ◌/◌, length, IfOk, Ok, Err, MatchResult};
ghost use Rattle.std.specs.Simd.{first_chunks};
ghost use Rattle.drivefile.specs.Exact.{Exact};
ghost use Rattle.drivefile.specs.Header.{InRange, needed};
ghost use Rattle.drivefile.specs.Items.{copied, copying, turn_at};
ghost use Rattle.drivefile.specs.Reading.{reading};
ghost use Rattle.drivefile.specs.Record.{copied_record, copying_record, recorded, turn_of};

use crate::block::{BLOCK, PAYLOAD};
use crate::copying::copy_samples;
use crate::header::Header;
use crate::items::TURNS_PER_BLOCK;
use crate::reader::test_file;
use faults::{RecordFault, RunFault};

#[derive(Clone, Copy)]
pub struct Record<'a> {
    file: &'a [u8],
    header: Header,
    ghost is_read: { reading file.now ≡ Ok header },
    ghost in_range: { InRange header },
}

impl<'a> Record<'a> {
    // The record of a file, or the first fault in the order of the tests. `cases` says which, by the definition of that
    // order; `range` has the header's values in their ranges; `exact` says that a file is accepted exactly when it is the
    // file of a record in range, that this record is answered, and that each record in range has one file.
    pub fn read(file: &'a [u8]) -> Result<Record<'a>, RecordFault>
        ensures cases { MatchResult result (λ it. (it.file.now ≡ file.now) × (reading file.now ≡ Ok it.header)) (λ fault. reading file.now ≡ Err fault) }
        ensures range { IfOk result (λ it. InRange it.header) }
        ensures exact { Exact file.now (λ it. it.header) (λ it. recorded it.file.now it.header) result }
    {
        let header = test_file(file)?;
        Ok(Record { file, header })
    }

    pub fn header(&self) -> Header
        ensures { result ≡ self.now.header }
    {
        self.header
    }

    // Copies the samples to the front of `out` and leaves the rest; refuses a list that is too short. `of_record` and
    // `after_of_record` say the same of the record's own list of samples.
    #[tactic(auto, using(crate::proofs::Calls::copies))]
    pub fn samples(&self, out: &mut [u32]) -> Result<(), RunFault>
        ensures value { result ≡ copying self.now.header out.old }
        ensures after { out.new ≡ copied self.now.header self.now.file.now out.old }
        ensures of_record { result ≡ copying_record (recorded self.now.file.now self.now.header) out.old }
        ensures after_of_record { out.new ≡ copied_record (recorded self.now.file.now self.now.header) out.old }
    {
        let count = self.header.samples as usize;
        if out.len() < count {
            return Err(RunFault::Memory);
        }
        let blocks = &self.blocks()[1..1 + self.header.sample_blocks()];
        copy_samples(blocks, &mut out[..count]);
        Ok(())
    }

    // The worker of a turn by its number from 0, or none. `of_record` says the same of the record's own list of turns.
    #[tactic(auto, using(crate::proofs::Calls::reads))]
    pub fn turn(&self, number: usize) -> Option<u8>
        ensures value { result ≡ turn_at self.now.file.now self.now.header number }
        ensures of_record { result ≡ turn_of (recorded self.now.file.now self.now.header) number }
    {
        if number >= self.header.turns as usize {
            return None;
        }
        let block = 1 + self.header.sample_blocks() + number / TURNS_PER_BLOCK;
        Some(self.blocks()[block][PAYLOAD + number % TURNS_PER_BLOCK])
    }

    // The blocks of the file.
    #[tactic(auto, using(crate::proofs::Counted::counted))]
    fn blocks(&self) -> &'a [[u8; BLOCK]]
        ensures value { result.now ≡ first_chunks 512 (length self.now.file.now / 512) self.now.file.now }
        ensures count { length result.now ≡ needed self.now.header.samples self.now.header.turns }
    {
        self.file.as_chunks().0
    }
}

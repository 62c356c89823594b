// The evaluation of a drive file, on values.
ghost use Rattle.std.specs.Prelude.{◌≡◌, None, Ok};
ghost use Rattle.drivefile.specs.Header.{values_fault};
ghost use Rattle.drivefile.specs.Items.{copying};
ghost use Rattle.drivefile.specs.Reading.{reading};
ghost use Rattle.evaluation.specs.Evaluated.{answer, left_in, section_words, worded};

use drivefile::{Header, Record, SectionChoice};
use faults::{RecordFault, RunFault};
use sections::envelope::{Decay, Envelope};
use sections::recursion::run;
use sections::roll::{Coefficient, Roll};
use sections::stroke::{Stops, Stroke};

// Puts the words of the chosen section in the place of its samples. Its values are in range, so no parameter is refused. A
// `match`, since the kinds are closed and each has types of its own.
fn run_section(section: SectionChoice, samples: &mut [u32]) -> Result<(), RecordFault>
    requires { values_fault section ≡ None }
    ensures value { result ≡ Ok tt }
    ensures after { samples.new ≡ section_words section samples.old }
{
    match section {
        SectionChoice::Stroke {
            start,
            lower,
            upper,
        } => run::<Stroke>(Stops::new(lower, upper)?, start, samples),
        SectionChoice::Roll { start, coefficient } => run::<Roll>(
            Coefficient::new(coefficient),
            start,
            samples,
        ),
        SectionChoice::Envelope { start, decay } => run::<Envelope>(
            Decay::new(decay)?,
            start,
            samples,
        ),
    }
    Ok(())
}

// Puts a record's words at the front of `out`.
fn put_words(source: &Record, out: &mut [u32]) -> Result<(), RunFault>
    ensures value { result ≡ copying source.now.header out.old }
    ensures after { out.new ≡ worded source.now.header source.now.file.now out.old }
{
    source.samples(out)?;
    let header = source.header();
    run_section(header.section, &mut out[..header.samples as usize])?;
    Ok(())
}

// Evaluates a file: answers its header and puts its words at the front of `out`. Refuses what the reader refuses, and a
// list with fewer places than the record has samples; a refusal leaves the list as it was.
pub fn evaluate(file: &[u8], out: &mut [u32]) -> Result<Header, RunFault>
    ensures value { result ≡ answer (reading file.now) out.old }
    ensures after { out.new ≡ left_in (reading file.now) file.now out.old }
{
    let record = Record::read(file)?;
    put_words(&record, out)?;
    Ok(record.header())
}

// The program: a drive file comes in on standard input, and the words of its section go out, sample by sample, or the
// refusal. The work is in the crate `evaluation`; here is only what reads and prints.
#![tactic(auto)]

use drivefile::{MOST_BYTES, MOST_ITEMS};
use evaluation::print_evaluation;
use std::io::{BufWriter, Read, Write};

fn main(rt: HostRuntime) -> anyhow::Result<()> {
    let alloc = rt.alloc();
    // A longer input than any legal file is refused by its length: one byte more tells.
    let mut file = Vec::new(alloc);
    rt.stdin()
        .take(MOST_BYTES as u64 + 1)
        .read_to_end(&mut file)?;
    let mut words = vec![in alloc; 0; MOST_ITEMS as usize]?;
    let mut out = BufWriter::new(alloc, rt.stdout())?;
    print_evaluation(&mut out, &file, &mut words)?;
    out.flush()?;
    Ok(())
}

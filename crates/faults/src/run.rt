// Faults of a run on working memory.
ghost use Rattle.std.specs.Prelude.{◌≡◌};
ghost use Rattle.faults.specs.Told.{run_told};
ghost use Rattle.faults.specs.declared.run.RunFault.TheVariants.{Record};

use crate::record::RecordFault;
use crate::refusal::{Layer, Refusal};

#[derive(Clone, Copy, Debug)]
pub enum RunFault {
    // a fault of a record, whole
    Record(RecordFault),
    // working memory too short, or samples not as many as the run has
    Memory,
    // the worker is not one of the run's
    Worker,
    // the memory is not a run's
    Board,
}

// By hand, since a derived one has no contract and callers' contracts name the fault that `?` makes.
impl From<RecordFault> for RunFault {
    ghost from_gives = { λ e r. r ≡ Record e };

    fn from(below: RecordFault) -> RunFault {
        RunFault::Record(below)
    }
}

impl RunFault {
    // The fault's row of the table of refusals. No `From`, whose call would not say that a table is looked up.
    pub fn told(&self) -> Refusal
        ensures { result ≡ run_told self.now }
    {
        let code = match *self {
            RunFault::Record(fault) => return fault.told(),
            RunFault::Memory => 10,
            RunFault::Worker => 11,
            RunFault::Board => 12,
        };
        Refusal {
            code,
            layer: Layer::Run,
            block: 0,
            byte: 0,
        }
    }
}

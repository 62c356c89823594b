// The refusals of the whole product, in three layers: a fault of a block of the drive file, of the record in it, of a
// run on working memory. Each layer carries the one below whole, so that `?` lifts a fault and no cause is lost.
// `told` gives a fault's number, layer and place; `specs/Told.antt` has the same table as a definition.
#![tactic(auto)]

mod block;
mod record;
mod refusal;
mod run;

pub use block::{BlockFault, Field};
pub use record::{Choice, Counter, RecordFault, Value};
pub use refusal::{Layer, Refusal};
pub use run::RunFault;

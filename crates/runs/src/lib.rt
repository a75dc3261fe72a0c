// Worked runs of collections: that the definitions give them, and that the code answers them.
#![tactic(auto)]

mod answering;
mod run;
mod table;

ghost use Rattle.std.specs.Prelude.{◌≡◌, true};
ghost use Rattle.runs.specs.Table.{AllHold, runs};

use crate::table::{octet_runs, residue_runs};

// Every run of the table holds, and collections over the supplied fields answer it.
pub fn worked_runs() -> bool
    ensures table { AllHold runs }
    ensures answered { result ≡ true }
{
    residue_runs() && octet_runs()
}

// Runs a script of records from standard input on a fresh box, and prints its answer sheet.

#![tactic(auto)]

ghost use Rattle.ideal.specs.Box.{call_on};
ghost use Rattle.printing.specs.Printing.{Ended};

use ideal::Profile;
use printing::{Failure, Progress};

fn print_sheet(rt: HostRuntime) -> Result<Progress, Failure>
    ensures { Ended result call_on }
{
    printing::print_answers(rt, Profile::Full)
}

fn main(rt: HostRuntime) {
    if let Err(failure) = print_sheet(rt) {
        // Where standard error cannot be written either, nobody can be told.
        let _ = eprintln!(rt; "boxrun: {failure}");
    }
}

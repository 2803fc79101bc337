// Runs a script of records from standard input on a fresh level-one box (document 02, P5), and prints its answer sheet.

#![tactic(auto)]

ghost use Rattle.ideal.specs.LevelOne.{level_one_on};
ghost use Rattle.printing.specs.Printing.{Ended};

use ideal::Profile;
use printing::{Failure, Progress};

fn print_sheet(rt: HostRuntime) -> Result<Progress, Failure>
    ensures { Ended result level_one_on }
{
    printing::print_answers(rt, Profile::LevelOne)
}

fn main(rt: HostRuntime) {
    if let Err(failure) = print_sheet(rt) {
        // Where standard error cannot be written either, nobody can be told.
        let _ = eprintln!(rt; "levelone: {failure}");
    }
}

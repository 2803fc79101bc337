// Runs a script of records from standard input on a fresh box of a profile, and prints its answer sheet.

#![tactic(auto)]

mod output;

ghost use Rattle.std.specs.Prelude.{◌≡◌, ◌≤◌, IfOk, length};
ghost use Rattle.ideal.specs.LevelOne.{box_of};
ghost use Rattle.sheet.specs.Sheet.{header, sheet};
ghost use Rattle.printing.specs.Printing.{PrintedWhole, Ended};

use ideal::Profile;
pub use output::{Progress, Unwritten};
use std::fmt;
use std::io::{self, Read, Stdin, Stdout};

// A longer script isn't run.
const MOST: usize = 65536;

// Why a sheet isn't printed whole: standard input cannot be read, or standard output cannot be written.
#[derive(Clone, Copy)]
pub enum Failure {
    Read,
    Write(Unwritten),
}

impl fmt::Display for Failure {
    fn fmt<W: fmt::Write>(&self, f: &mut fmt::Formatter<W>) -> fmt::Result {
        match self {
            Failure::Read => write!(f, "standard input cannot be read; no sheet is printed"),
            Failure::Write(_) => write!(
                f,
                "standard output cannot be written; the sheet is not whole"
            ),
        }
    }
}

// Reads until the buffer is full or the input ends: how many bytes.
fn read_script(mut input: Stdin, script: &mut [u8]) -> io::Result<usize>
    ensures { IfOk result (λ n. n ≤ length script.new) }
{
    // By `while`: a read gives as many bytes as there are.
    let mut n = 0;
    while n < script.len() {
        let more = input.read(&mut script[n..])?;
        if more == 0 {
            break;
        }
        n += more;
    }
    Ok(n)
}

// The lines after the header, 65,536 bytes of them or fewer at a time, until no record is left or where writing fails.
// `head` counts the header.
fn run(
    output: Stdout,
    profile: Profile,
    script: &[u8],
    head: Progress,
) -> Result<Progress, Unwritten>
    requires { (length script.now ≤ 65536) × (head.printed ≡ length header) }
    ensures { PrintedWhole result (sheet (box_of profile) script.now) }
{
    let mut held = state::fresh_record();
    let mut log = state::fresh_log();
    let mut escrow = state::fresh_escrow();
    let mut heaps = [0u8; 4096];
    let mut shared = [0u8; 1024];
    let mut log_values = [0u8; 4096];
    let mut escrow_values = [0u8; 4096];
    let mut text = [0u8; 65536];
    let mut so_far = head;
    // By `while`: the turns go on by as many bytes as their records have.
    let mut at = 0;
    while at < script.len() {
        let lines = turns::next_lines(
            profile,
            held,
            &mut log,
            &mut escrow,
            &mut heaps,
            &mut shared,
            &mut log_values,
            &mut escrow_values,
            &script[at..],
            &mut text,
        );
        held = lines.held;
        let size = lines.size;
        so_far = output::print(output, profile, script, so_far, &text[..size])?;
        at += lines.done;
    }
    Ok(so_far)
}

// The sheet of the script: the header, and its lines or the line for too long a script.
fn print_sheet(output: Stdout, profile: Profile, script: &[u8]) -> Result<Progress, Unwritten>
    ensures { PrintedWhole result (sheet (box_of profile) script.now) }
{
    let head = output::print(output, profile, script, output::nothing(), &sheet::header())?;
    if script.len() <= MOST {
        return run(output, profile, script, head);
    }
    output::print(output, profile, script, head, &sheet::too_long())
}

// Reads a script from standard input, and prints its sheet.
pub fn print_answers(rt: HostRuntime, profile: Profile) -> Result<Progress, Failure>
    ensures { Ended result (box_of profile) }
{
    let mut script = [0u8; 65537];
    let Ok(n) = read_script(rt.stdin(), &mut script) else {
        return Err(Failure::Read);
    };
    print_sheet(rt.stdout(), profile, &script[..n]).map_err(Failure::Write)
}

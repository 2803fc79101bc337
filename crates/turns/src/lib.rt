// The records of a script, run on a sound box, and their lines.

#![tactic(auto)]

ghost use Rattle.std.specs.Prelude.{◌+◌, ◌*◌, ◌≤◌, ◌≡◌, cond, length};
ghost use Rattle.ideal.specs.Box.{given, output_after};
ghost use Rattle.ideal.specs.LevelOne.{box_of};
ghost use Rattle.ideal.specs.Layouts.{Sound};
ghost use Rattle.ideal.specs.Tables.{lent_tables};
ghost use Rattle.calls.specs.Buffers.{tables_in, SoundIn, SameBuffers};
ghost use Rattle.sheet.specs.Records.{last_code};
ghost use Rattle.sheet.specs.Sheet.{line};
ghost use Rattle.sheet.specs.Stored.{AtFront};
ghost use Rattle.turns.specs.Next.{answer_in, line_most, Puts, TurnMade, turn, turns};

use calls::Buffers;
use ideal::{BoxRecord, EscrowRow, LogRow, Profile};
use rows::{edit_escrow, put_log_row};
use sheet::{is_last, write_line};
use state::Answer;

// Any line fits in so many bytes.
const LINE: usize = 2113;

// What one turn or more give: the box record, how many bytes of the rest are done with, and how many bytes the lines have.
#[derive(Clone, Copy)]
pub struct Lines {
    pub held: BoxRecord,
    pub done: usize,
    pub size: usize,
}

// The line of an answer whose shown bytes stand at the front of the output buffer.
fn write_answer(answer: Answer, output: &[u8], out: &mut [u8]) -> usize
    requires { (answer.shown ≤ length output.now) × (65 + 2 * answer.shown ≤ length out.old) }
    ensures { AtFront (line (answer_in answer output.now)) out.old out.new result }
{
    let n = answer.shown as usize;
    write_line(answer.code, answer.number, answer.used, &output[..n], out)
}

// How many bytes of what is left are done with: those used, and after a line that is the last, all.
fn bytes_done(code: u8, used: usize, left: usize) -> usize
    ensures { result ≡ cond (last_code code) left used }
{
    if is_last(code) {
        return left;
    }
    used
}

// The record at the front of rest on a sound box, and its line at the front of out. A line has at most 2,113 bytes. Its
// shown bytes go through the output buffer; what that holds beforehand alters no line.
pub fn next_line(
    profile: Profile,
    held: BoxRecord,
    log: &mut [LogRow],
    escrow: &mut [EscrowRow],
    lent: &mut Buffers,
    rest: &[u8],
    out: &mut [u8],
) -> Lines
    requires { SoundIn held log.old escrow.old lent.old × (line_most ≤ length out.old) }
    ensures same_buffers { SameBuffers lent.old lent.new }
    ensures turn_made { TurnMade
        (turn (box_of profile) (tables_in held log.old escrow.old lent.old) rest.now) (tables_in result.held log.new escrow.new lent.new)
        rest.now result.done out.old out.new result.size }
    ensures puts { Puts held log.old escrow.old result.held log.new escrow.new }
    ensures output_after { lent.new.output.now
        ≡ output_after (box_of profile (tables_in held log.old escrow.old lent.old) (given rest.now 1024)).answer lent.old.output.now }
{
    let change = calls::call_sound(profile, held, log, escrow, lent, rest);
    put_log_row(log, change.edits.log);
    edit_escrow(escrow, change.edits.escrow);
    let answer = change.answer;
    let output = &mut *lent.output;
    let size = write_answer(answer, output, out);
    let done = bytes_done(answer.code, answer.used, rest.len());
    Lines {
        held: change.held,
        done,
        size,
    }
}

// Lines at the front of out, a line a record, until no input is left, after a line that is the last, or where the next
// line might not fit. Shown bytes go through the output buffer.
fn lines_lent(
    profile: Profile,
    mut held: BoxRecord,
    log: &mut [LogRow],
    escrow: &mut [EscrowRow],
    lent: &mut Buffers,
    rest: &[u8],
    out: &mut [u8],
) -> Lines
    requires { SoundIn held log.old escrow.old lent.old × (line_most ≤ length out.old) }
    ensures same_buffers { SameBuffers lent.old lent.new }
    ensures turn_made { TurnMade
        (turns (box_of profile) (length out.old) (tables_in held log.old escrow.old lent.old) rest.now)
        (tables_in result.held log.new escrow.new lent.new)
        rest.now result.done out.old out.new result.size }
{
    // By `while`: a turn goes on by as many bytes as its record has.
    let mut done = 0;
    let mut size = 0;
    while done < rest.len() {
        if out.len() - size < LINE {
            break;
        }
        let next = next_line(
            profile,
            held,
            log,
            escrow,
            lent,
            &rest[done..],
            &mut out[size..],
        );
        held = next.held;
        done += next.done;
        size += next.size;
    }
    Lines { held, done, size }
}

// The same, with an output buffer of its own: one for all records, since to clear it for each takes time.
pub fn next_lines(
    profile: Profile,
    held: BoxRecord,
    log: &mut [LogRow],
    escrow: &mut [EscrowRow],
    heaps: &mut [u8],
    shared: &mut [u8],
    log_values: &mut [u8],
    escrow_values: &mut [u8],
    rest: &[u8],
    out: &mut [u8],
) -> Lines
    requires { Sound (lent_tables held log.old escrow.old heaps.old shared.old log_values.old escrow_values.old) 1024
        × (line_most ≤ length out.old) }
    ensures { TurnMade
        (turns (box_of profile) (length out.old)
        (lent_tables held log.old escrow.old heaps.old shared.old log_values.old escrow_values.old)
        rest.now)
        (lent_tables result.held log.new escrow.new heaps.new shared.new log_values.new escrow_values.new)
        rest.now result.done out.old out.new result.size }
{
    let mut output = [0u8; 1024];
    let mut lent = Buffers {
        heaps,
        shared,
        log_values,
        escrow_values,
        output: &mut output,
    };
    lines_lent(profile, held, log, escrow, &mut lent, rest, out)
}

// The decision, where the box's answer to the check is known.
ghost use Rattle.std.specs.Prelude.{◌≡◌, true, ◌&&◌, ◌+ℤ◌, ◌-ℤ◌};
ghost use Rattle.desk.specs.Decision.{in_range, correction_in_range, decided, corrected, judged, answer_of, desk_by};

use crate::correcting::{correction_of, signed_of};
use crate::{Checked, Claim, Decision, Tank, TankAnswer};

// A tank's code, by its number (document 02, P6).
#[derive(Clone, Copy)]
enum Code {
    Decided = 0,
    OutOfRange = 24,
    NotLogged = 25,
    CorrectionOutOfRange = 26,
}

// An action, by its number: nothing with a refusal.
#[derive(Clone, Copy)]
enum Action {
    Nothing = 0,
    Hold = 1,
    Cool = 2,
    Warm = 3,
}

impl From<Decision> for TankAnswer {
    ghost from_gives = { λ d a. a ≡ answer_of d };

    #[tactic(auto, unfolding(crate::specs::Decision::answer_of, crate::specs::Decision::told))]
    fn from(d: Decision) -> TankAnswer {
        let (code, action, refusal) = match d {
            Decision::Hold => (Code::Decided, Action::Hold, 0),
            Decision::Cool => (Code::Decided, Action::Cool, 0),
            Decision::Warm => (Code::Decided, Action::Warm, 0),
            Decision::OutOfRange => (Code::OutOfRange, Action::Nothing, 0),
            Decision::NotLogged(refusal) => (Code::NotLogged, Action::Nothing, refusal),
            Decision::CorrectionOutOfRange => (Code::CorrectionOutOfRange, Action::Nothing, 0),
        };
        TankAnswer {
            code: code as u8,
            action: action as u8,
            refusal,
        }
    }
}

#[tactic(auto, using(std::proofs::lemmas::Int::ints), unfolding(crate::specs::Decision::in_range, crate::specs::Decision::between))]
fn in_range(x: i32) -> bool
    ensures { result ≡ in_range x }
{
    (-500..=3000).contains(&x)
}

// The reading and the setpoint.
pub fn in_ranges(reading: i32, setpoint: i32) -> bool
    ensures { result ≡ in_range reading && in_range setpoint }
{
    in_range(reading) && in_range(setpoint)
}

#[tactic(auto, using(std::proofs::lemmas::Int::ints), unfolding(crate::specs::Decision::decided))]
fn decide(difference: i32) -> Decision
    ensures { answer_of result ≡ decided difference }
{
    if difference > 50 {
        return Decision::Cool;
    }
    if difference < -50 {
        return Decision::Warm;
    }
    Decision::Hold
}

// In 32 bits nothing overflows: each of the three is small.
#[tactic(auto, using(std::proofs::lemmas::Int::ints), unfolding(crate::specs::Decision::in_range, crate::specs::Decision::correction_in_range, crate::specs::Decision::between))]
fn decide_with(reading: i32, setpoint: i32, correction: i16) -> Decision
    requires reading_value { in_range reading ≡ true }
    requires setpoint_value { in_range setpoint ≡ true }
    requires correction_value { correction_in_range correction ≡ true }
    ensures { answer_of result ≡ decided (reading +ℤ correction -ℤ setpoint) }
{
    decide(reading + correction as i32 - setpoint)
}

#[tactic(auto, using(std::proofs::lemmas::Int::ints), unfolding(crate::specs::Decision::corrected, crate::specs::Decision::correction_in_range, crate::specs::Decision::between))]
fn correct(reading: i32, setpoint: i32, correction: i16) -> Decision
    requires reading_value { in_range reading ≡ true }
    requires setpoint_value { in_range setpoint ≡ true }
    ensures { answer_of result ≡ corrected reading setpoint correction }
{
    if (-50..=50).contains(&correction) {
        return decide_with(reading, setpoint, correction);
    }
    Decision::CorrectionOutOfRange
}

#[tactic(auto, unfolding(crate::specs::Decision::judged, crate::specs::Decision::says_yes, crate::specs::Decision::refusal_of, crate::specs::Decision::correction_in_range, crate::specs::Decision::between))]
fn judge(reading: i32, setpoint: i32, correction: Option<Claim>, checked: Checked) -> Decision
    requires reading_value { in_range reading ≡ true }
    requires setpoint_value { in_range setpoint ≡ true }
    ensures { answer_of result ≡ judged (λ _. checked) reading setpoint correction }
{
    let Some(claim) = correction else {
        return decide_with(reading, setpoint, 0);
    };
    match checked {
        Ok(1) => correct(reading, setpoint, signed_of(claim.low, claim.high)),
        Ok(_) => Decision::NotLogged(0),
        Err(refusal) => Decision::NotLogged(refusal),
    }
}

// A tank, where the box's answer to its check is this.
#[tactic(auto, unfolding(crate::specs::Decision::desk_by))]
pub fn desk_with(tank: Tank, checked: Checked) -> Decision
    ensures { answer_of result ≡ desk_by (λ _. checked) tank }
{
    if in_ranges(tank.reading, tank.setpoint) {
        return judge(tank.reading, tank.setpoint, correction_of(tank), checked);
    }
    Decision::OutOfRange
}

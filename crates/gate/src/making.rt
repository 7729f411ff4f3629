// Making a gate: the fresh state, or the all-zero one with a refusal (document 01, "State and calls").
ghost use Rattle.std.specs.Prelude.{◌≡◌, ◌≤◌, ◌++◌, ℕ, List, take, drop, replicate};
ghost use Rattle.rules.specs.Refusals.{first_of, number_in};
ghost use Rattle.machine.specs.Levels.{most_levels, levels_of};
ghost use Rattle.control.specs.Control.{list_kept};
ghost use Rattle.model.specs.Calls.{making_of};
ghost use Rattle.model.specs.Gate.{make_checks};
ghost use Rattle.gate.specs.Layout.{state_with, outcome, make_state};
ghost use Rattle.gate.specs.Making.{fresh_head};
ghost use Rattle.gate.specs.Runs.{Runs};

use crate::{Head, Outcome, State, Turn};
use machine::Levels;
use model::{Answer, Clock};
use rules::refusal::Refusal;

// A fresh gate's head, with its list's length and wait of level 0: nothing admitted, no load, nothing
// counted.
fn fresh_head(profile: u32, oldway: u32, levels: usize, calm: u32, stamp: u32) -> Head
    requires { levels ≤ most_levels }
    ensures { (above waits : List ℕ)
        → result ≡ fresh_head profile oldway (levels_of levels calm above waits) stamp }
{
    Head {
        clock: Clock { time: 0, stamp },
        tuning: control::fresh(),
        profile,
        oldway,
        live: 1,
        levels: levels as u32,
        calm,
        ..Head::default()
    }
}

// What refuses a make. As `checks::check_making`, on a list where C lends it: a Levels would copy both rows
// at each make.
#[tactic(auto, unfolding(rules::specs::Refusals::first_of))]
fn check_making<'a>(
    profile: u32,
    oldway: u32,
    n: usize,
    calm: u32,
    thresholds: &'a [u32; 8],
    pauses: &'a [u32; 8],
) -> Result<(), Refusal>
    ensures { number_in result ≡ first_of (make_checks (making_of profile oldway
        (levels_of n calm thresholds.now pauses.now) 0)) }
{
    if !rules::lies_within(rules::FIRST_PROFILE, rules::LAST_PROFILE, profile) {
        return Err(Refusal::BadProfile);
    }
    if 1 < oldway {
        return Err(Refusal::BadProfile);
    }
    if profile != rules::LISTED {
        return Ok(());
    }
    if !machine::is_list_good(n, calm, thresholds, pauses) {
        return Err(Refusal::BadList);
    }
    Ok(())
}

// The first n numbers of a row put into another, one by one: `copy_from_slice` compares addresses as numbers,
// which no module of a board may (docs/BOARDS.md), and a whole row takes a board more than a list has.
fn copy(n: usize, from: &[u32; 8], row: &mut [u32; 8])
    requires { n ≤ most_levels }
    ensures { row.new ≡ take n from.now ++ drop n row.old }
{
    for i in 0..n {
        row[i] = from[i];
    }
}

// The list that a make leaves, in rows that are wiped; its length and its wait of level 0 are handed back. As
// `control::list_kept`, on a list where C lends it.
fn keep_list<'a>(
    profile: u32,
    n: usize,
    calm: u32,
    thresholds: &'a [u32; 8],
    pauses: &'a [u32; 8],
    above: &mut [u32; 8],
    waits: &mut [u32; 8],
) -> (usize, u32)
    requires above_wiped { above.old ≡ replicate most_levels 0 }
    requires waits_wiped { waits.old ≡ replicate most_levels 0 }
    ensures { levels_of result.0 result.1 above.new waits.new
        ≡ list_kept profile (levels_of n calm thresholds.now pauses.now) }
{
    if profile != rules::LISTED {
        return (0, 0);
    }
    let levels = n.min(machine::MOST_LEVELS);
    copy(levels, thresholds, above);
    copy(levels, pauses, waits);
    (levels, calm)
}

// A gate made in the rows that are lent, whatever they hold: the fresh state; or the all-zero one with the
// refusal of a bad profile, of a way that is neither 0 nor 1, or, in profile 5 alone, of a bad list. The rows
// one by one, the list's too: a make writes those that a Gate only reads, and C lends the list so.
pub fn make_in<'a>(
    queues: &mut [u32; 64],
    came: &mut [u64; 20],
    air: &mut [u32; 40],
    loads: &mut [u32; 50],
    above: &mut [u32; 8],
    waits: &mut [u32; 8],
    profile: u32,
    oldway: u32,
    n: usize,
    calm: u32,
    thresholds: &'a [u32; 8],
    pauses: &'a [u32; 8],
    stamp: u32,
) -> Turn
    ensures { outcome (state_with result.head queues.new came.new air.new
        loads.new above.new waits.new) result.answer
        ≡ make_state (making_of profile oldway
        (levels_of n calm thresholds.now pauses.now) stamp) }
{
    queues.fill(0);
    came.fill(0);
    air.fill(0);
    loads.fill(0);
    above.fill(0);
    waits.fill(0);
    if let Err(refusal) = check_making(profile, oldway, n, calm, thresholds, pauses) {
        return Turn {
            head: Head::default(),
            answer: Answer::from(refusal),
        };
    }
    let (levels, own) = keep_list(profile, n, calm, thresholds, pauses, above, waits);
    Turn {
        head: fresh_head(profile, oldway, levels, own, stamp),
        answer: Answer::Ready,
    }
}

// A gate made by value. What a make is asked for comes one by one, as C hands it.
pub fn make(profile: u32, oldway: u32, list: Levels, stamp: u32) -> Outcome
    ensures exact { result ≡ make_state (making_of profile oldway list stamp) }
    ensures runs { Runs result (making_of profile oldway list stamp) }
{
    let mut state = State::empty();
    let turn = make_in(
        &mut state.queues,
        &mut state.came,
        &mut state.air,
        &mut state.loads,
        &mut state.above,
        &mut state.waits,
        profile,
        oldway,
        list.len,
        list.wait,
        &list.above,
        &list.waits,
        stamp,
    );
    state.head = turn.head;
    let answer = turn.answer;
    Outcome { state, answer }
}

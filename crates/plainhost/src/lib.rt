// The plain engine's calls for a C or Rust host, to run beside the gate's: state and answer as plain structs,
// by value (document 01, "State and calls"; document 02, W-212).
#![tactic(auto)]

ghost use Rattle.std.specs.Prelude.{◌≡◌, length};
ghost use Rattle.model.specs.Calls.{making_of, words, count, offer, poll};
ghost use Rattle.plain.specs.Layout.{call_on, make_state};
ghost use Rattle.calllog.specs.Bursts.{burst_number};
ghost use Rattle.plain.specs.Bursts.{burst_state, burst_answers};
ghost use Rattle.plainhost.specs.Turns.{turn_of};

use machine::Levels;
use model::{Offer, Reply};
use plain::{BurstTurn, Outcome, State};

pub mod edition;

// What a call hands back: the next state, and the answer as plain numbers.
#[repr(C)]
#[derive(Clone, Copy)]
pub struct Turn {
    pub state: State,
    pub reply: Reply,
}

impl From<Outcome> for Turn {
    ghost from_gives = { λ outcome turn. turn ≡ turn_of outcome };

    fn from(outcome: Outcome) -> Turn {
        Turn {
            state: outcome.state,
            reply: Reply::from(outcome.answer),
        }
    }
}

// A fresh state; the all-zero one with the refusal of a bad profile, of a way that is neither 0 nor 1, or, in
// profile 5 alone, of a bad list.
#[unsafe(no_mangle)]
pub extern "C" fn presscurlew_plain_make(
    profile: u32,
    oldway: u32,
    list: Levels,
    stamp: u32,
) -> Turn
    ensures { result ≡ turn_of (make_state (making_of profile oldway list stamp)) }
{
    Turn::from(plain::make(profile, oldway, list, stamp))
}

// A sample by words.
#[unsafe(no_mangle)]
pub extern "C" fn presscurlew_plain_sample_words(
    state: State,
    probes: u32,
    ws: &[u64],
    stamp: u32,
) -> Turn
    ensures { result ≡ turn_of (call_on state (words stamp probes ws.now)) }
{
    Turn::from(state.sample_words(probes, ws, stamp))
}

// A sample by its busy count.
#[unsafe(no_mangle)]
pub extern "C" fn presscurlew_plain_sample_count(
    state: State,
    busy: u32,
    probes: u32,
    stamp: u32,
) -> Turn
    ensures { result ≡ turn_of (call_on state (count stamp busy probes)) }
{
    Turn::from(state.sample_count(busy, probes, stamp))
}

// A packet offered.
#[unsafe(no_mangle)]
pub extern "C" fn presscurlew_plain_offer(
    state: State,
    id: u32,
    priority: u32,
    ontime: u32,
    lifetime: u32,
    stamp: u32,
) -> Turn
    ensures { result ≡ turn_of (call_on state (offer stamp
        (record { id = id; priority = priority; ontime = ontime; lifetime = lifetime }))) }
{
    let o = Offer {
        id,
        priority,
        ontime,
        lifetime,
    };
    Turn::from(state.offer(o, stamp))
}

// Whether a packet may go, and which.
#[unsafe(no_mangle)]
pub extern "C" fn presscurlew_plain_poll(state: State, stamp: u32) -> Turn
    ensures { result ≡ turn_of (call_on state (poll stamp)) }
{
    Turn::from(state.poll(stamp))
}

// The offers of a slice of log records, in one call, with an answer byte for each.
#[unsafe(no_mangle)]
pub extern "C" fn presscurlew_plain_burst(
    state: State,
    records: &[u8],
    answers: &mut [u8],
) -> BurstTurn
    ensures number { result.number ≡ burst_number (length records.now)
        (length answers.old) }
    ensures state { result.state ≡ burst_state state records.now answers.old }
    ensures answers { answers.new ≡ burst_answers state records.now
        answers.old }
{
    plain::burst(state, records, answers)
}

// The plain engine: the gate with one list of packets in order of arrival, written to be read (document 02,
// W-212). It shares no trait with the gate: it is written anew, and that both agree is proved (`Agrees`).
#![tactic(auto)]

ghost use Rattle.std.specs.Prelude.{◌≡◌, true, ◌&&◌, [], ◌∷◌, ◌++◌, leb, eqb, length, ◌-◌, ◌≤◌, ◌<◌, max};
ghost use Rattle.std.specs.Prelude.{ℕ, IsOk};
ghost use Rattle.rules.specs.Profiles.{last_priority, room, full_load};
ghost use Rattle.rules.specs.Refusals.{first_of, number_of, number_in};
ghost use Rattle.rules.specs.Clock.{end_of_time};
ghost use Rattle.machine.specs.Loads.{no_loads};
ghost use Rattle.control.specs.Control.{control_of, sampled, Steerable};
ghost use Rattle.model.specs.declared.Answer.TheVariants.{Refused};
ghost use Rattle.model.specs.Calls.{words, count, offer, poll, making_of};
ghost use Rattle.model.specs.Ledger.{most_air, young, air_of, allowed_from};
ghost use Rattle.model.specs.State.{blank, not_live, with_control};
ghost use Rattle.model.specs.Effects.{moved, refreshed, room_made, joined, wait_left, air_left, admits};
ghost use Rattle.model.specs.Gate.{make_checks, clock_checks, number_checks, room_checks};
ghost use Rattle.ledger.specs.Layout as ledger;
ghost use Rattle.line.specs.Line.{count_of, without};
ghost use Rattle.line.specs.Layout.{items};
ghost use Rattle.plain.specs.Layout.{view_of, state_of, LaidOut, sound_state, Given, outcome, call_on};
ghost use Rattle.plain.specs.Layout.{control_on, make_state, entry_number, forty};
ghost use Rattle.plain.specs.Refusals.{checks_on};
ghost use Rattle.plain.specs.Bursts.{offered_by, burst_state, burst_answers};
ghost use Rattle.calllog.specs.Bursts.{burst_number};
ghost use Rattle.plain.specs.Runs.{Agrees};

use control::Tuning;
use ledger::Ledger;
use line::Line;
use machine::{Levels, Loads};
use model::{Answer, Clock, Counts, Last, Offer, Packet};
use records::{RECORD_BYTES, Record};
use rules::refusal::Refusal;

// One engine's state. `oldway` is 1 where an offer of a priority of which five wait is refused, 0 where it
// displaces the first of those. `live` is 1, or 0 before a make that was not refused. The loads and the
// levels are profile 5's, and zero in every other. All are plain numbers, since C hands in any: `is_sound`
// judges them.
#[repr(C)]
#[derive(Clone, Copy)]
pub struct State {
    pub line: Line,
    pub ledger: Ledger,
    pub loads: Loads,
    pub levels: Levels,
    pub clock: Clock,
    pub last: Last,
    pub counts: Counts,
    pub tuning: Tuning,
    pub profile: u32,
    pub oldway: u32,
    pub live: u32,
}

// What a call gives: the next state and the answer. One for each engine: `call_on` of its specs gives it, and
// the laws of both name theirs.
#[derive(Clone, Copy)]
pub struct Outcome {
    pub state: State,
    pub answer: Answer,
}

// Whether an offer is refused for lack of room: only in an engine made in the old way.
fn refuses_full(oldway: u32, l: Line, priority: u32) -> bool
    ensures { result ≡ (eqb oldway 1 && leb room (count_of priority (items l))) }
{
    if oldway != 1 {
        return false;
    }
    line::MOST_OF_A_PRIORITY <= line::count_of(l, priority)
}

// Whether a ledger is sound; one that is holds nothing but its admissions.
fn is_ledger_sound(l: &Ledger, profile: u32, time: u64, last: Last) -> bool
    requires { time ≤ end_of_time }
    ensures exact { result ≡ ledger.sound_ledger profile time last l.now }
    ensures tight { result ≡ true → ledger.Packed last.at l.now }
{
    ledger::is_sound(l.len, &l.slots, profile, time, last)
}

// The ledger without the admissions that have aged. Its base is the time of the last admission.
fn age(l: &mut Ledger, base: u64, time: u64)
    requires packed { ledger.Packed base l.old }
    requires in_order { ledger.InOrder (ledger.items base l.old) }
    ensures { l.new ≡ ledger.packed base (young time (ledger.items base l.old)) }
{
    l.len = ledger::age(l.len, &mut l.slots, base, time);
}

// The ledger, none of it aged, with one more admission, which is the last from then on: its time is the base.
fn note(l: &mut Ledger, base: u64, at: u64, ontime: u32)
    requires packed { ledger.Packed base l.old }
    requires len_lt_forty { l.old.len < forty }
    requires base_le_at { base ≤ at }
    requires l_value { young at (ledger.items base l.old) ≡ ledger.items base l.old }
    ensures { l.new ≡ ledger.packed at (ledger.items base l.old ++ (ledger.admission at ontime ∷ [])) }
{
    ledger::note(l.len, &mut l.slots, base, at, ontime);
    l.len += 1;
}

// The µs until the air allows a packet.
fn air_left(l: &Ledger, base: u64, ontime: u32, time: u64) -> u64
    requires len_le_forty { l.now.len ≤ forty }
    requires l_bound { air_of (ledger.items base l.now) ≤ most_air }
    requires timely { ledger.Timely (ledger.items base l.now) }
    ensures { result ≡ allowed_from ontime time (ledger.items base l.now) - time }
{
    ledger::air_left(l.len, &l.slots, base, ontime, time)
}

// What a burst leaves: the state, and the number that refuses it, or 0, which C takes beside the state.
#[repr(C)]
#[derive(Clone, Copy)]
pub struct BurstTurn {
    pub state: State,
    pub number: u32,
}

impl State {
    // Whether a state is sound; one that is holds nothing but what it says.
    pub fn is_sound(self) -> bool
        ensures exact { result ≡ sound_state self }
        ensures tight { result ≡ true → LaidOut self }
    {
        self.judge()
    }

    // Whether a state is sound, where it lies: each call asks it, and a state is a kilobyte.
    fn judge(&self) -> bool
        ensures exact { result ≡ sound_state self.now }
        ensures tight { result ≡ true → LaidOut self.now }
    {
        if self.live != 1 {
            return false;
        }
        if 1 < self.oldway {
            return false;
        }
        if !control::is_sound(self.profile, self.tuning, self.levels, self.loads) {
            return false;
        }
        let now = self.clock.time;
        if rules::passes_end(now) {
            return false;
        }
        if !checks::is_last_sound(self.last, self.profile, now) {
            return false;
        }
        if !line::is_sound(self.line, self.profile, now) {
            return false;
        }
        if !checks::are_counts_sound(self.counts, self.line.len as u64) {
            return false;
        }
        is_ledger_sound(&self.ledger, self.profile, now, self.last)
    }

    // A refusal hands back the given state unchanged.
    fn refused(self, refusal: Refusal) -> Outcome
        ensures { result ≡ outcome self (Refused (number_of refusal)) }
    {
        Outcome {
            state: self,
            answer: Answer::from(refusal),
        }
    }

    // The checks of every call.
    fn check(&self, stamp: u32) -> Result<(), Refusal>
        ensures exact { number_in result ≡ entry_number self.now stamp }
        ensures tight { IsOk result → LaidOut self.now }
    {
        if !self.judge() {
            return Err(Refusal::NoState);
        }
        checks::clock_after(self.clock, stamp)?;
        Ok(())
    }

    // The clock moves, and admissions of the last second are dropped that have aged. This and the next ask
    // for a state that was judged: a type for it would be made and taken apart in each call.
    fn advance(&mut self, stamp: u32)
        requires { Given self.old }
        ensures { self.new ≡ state_of (moved (view_of self.old) stamp) }
    {
        let clock = checks::clock_at(self.clock, stamp);
        age(&mut self.ledger, self.last.at, clock.time);
        self.clock = clock;
    }

    // First the clock moves, then every expired packet goes.
    fn refresh(&mut self, stamp: u32)
        requires { Given self.old }
        ensures { self.new ≡ state_of (refreshed (view_of self.old) stamp) }
    {
        let held = self.line.len;
        self.advance(stamp);
        let left = line::expire(self.line, self.clock.time);
        let gone = held - left.len;
        self.counts.expired += gone as u64;
        self.line = left;
    }

    // A sample's load moves what samples steer. In profile 5 it is noted first, so that it counts.
    fn steer(&mut self, load: u32)
        requires laid_out { LaidOut self.old }
        requires steerable { Steerable self.old.profile self.old.tuning }
        requires load_le_full_load { load ≤ full_load }
        ensures { self.new ≡ state_of (with_control (view_of self.old) (sampled (control_on self.old) load)) }
    {
        let tuning = self.tuning;
        let levels = self.levels;
        let mut loads = self.loads;
        let mut level = tuning.level;
        if self.profile == rules::LISTED {
            loads = loads.note(load);
            level = levels.level_after(loads, level);
        }
        self.tuning = control::tuning_after(self.profile, tuning, level, load);
        self.loads = loads;
    }

    // The checks of a sample.
    fn check_count(&self, busy: u32, probes: u32, stamp: u32) -> Result<(), Refusal>
        ensures exact { number_in result ≡ first_of (checks_on self.now (count stamp busy probes)) }
        ensures tight { IsOk result → LaidOut self.now }
    {
        self.check(stamp)?;
        if rules::is_bad_count(busy, probes) {
            return Err(Refusal::BadSample);
        }
        Ok(())
    }

    // A sample by its busy count.
    pub fn sample_count(mut self, busy: u32, probes: u32, stamp: u32) -> Outcome
        ensures { result ≡ call_on self (count stamp busy probes) }
    {
        if let Err(refusal) = self.check_count(busy, probes, stamp) {
            return self.refused(refusal);
        }
        self.advance(stamp);
        self.steer(rules::load(busy, probes));
        Outcome {
            state: self,
            answer: Answer::Taken,
        }
    }

    // A sample by words. A bad one goes by a count that is as bad: one busy of no probes.
    pub fn sample_words(mut self, probes: u32, ws: &[u64], stamp: u32) -> Outcome
        ensures { result ≡ call_on self (words stamp probes ws.now) }
    {
        match rules::read_sample(probes, ws) {
            Some(busy) => self.sample_count(busy, probes, stamp),
            None => self.sample_count(1, 0, stamp),
        }
    }

    // The checks of an offer that look at none that wait.
    fn check_offer(&self, o: Offer, stamp: u32) -> Result<(), Refusal>
        ensures exact { number_in result
            ≡ first_of (clock_checks (sound_state self.now) self.now.clock stamp
            (number_checks self.now.profile o)) }
        ensures tight { IsOk result → LaidOut self.now }
    {
        self.check(stamp)?;
        checks::check_offer(self.profile, o)
    }

    // The checks that come last, once the expired are gone: of the old way, five of a priority wait; and too
    // many were accepted.
    fn check_room(&self, priority: u32) -> Result<(), Refusal>
        ensures { number_in result ≡ first_of (room_checks self.now.oldway
            (count_of priority (items self.now.line)) self.now.counts.accepted) }
    {
        if refuses_full(self.oldway, self.line, priority) {
            return Err(Refusal::QueueFull);
        }
        if rules::MOST_OFFERS <= self.counts.accepted {
            return Err(Refusal::Spent);
        }
        Ok(())
    }

    // A packet joins the line. Where five of its priority wait, the first of those leaves for it.
    fn join(&mut self, p: Packet)
        requires given { Given self.old }
        requires priority_le_last_priority { p.priority ≤ last_priority }
        ensures { self.new ≡ state_of (joined (room_made (view_of self.old) p.priority) p) }
    {
        let mut line = self.line;
        let mut counts = self.counts;
        counts.accepted += 1;
        if line::MOST_OF_A_PRIORITY <= line::count_of(line, p.priority) {
            line = line::remove(line, p.priority);
            counts.displaced += 1;
        }
        self.line = line::push(line, p);
        self.counts = counts;
    }

    // A packet offered.
    pub fn offer(mut self, o: Offer, stamp: u32) -> Outcome
        ensures { result ≡ call_on self (offer stamp o) }
    {
        if let Err(refusal) = self.check_offer(o, stamp) {
            return self.refused(refusal);
        }
        let mut s = self;
        s.refresh(stamp);
        if let Err(full) = s.check_room(o.priority) {
            return self.refused(full);
        }
        let p = checks::packet_of(o, s.clock.time);
        s.join(p);
        Outcome {
            state: s,
            answer: Answer::Taken,
        }
    }

    // The µs until a packet may go: what is left of the wait, or until the air allows it.
    fn left_for(&self, p: Packet) -> u64
        requires { Given self.now }
        ensures { result ≡ max (wait_left (view_of self.now)) (air_left (view_of self.now) p) }
    {
        let last = self.last;
        let now = self.clock.time;
        let listed = self.levels.wait(self.tuning.level);
        let closed = control::closed_after(self.profile, self.tuning, listed, last.ontime);
        let left = checks::left_of(closed, last, now);
        let late = air_left(&self.ledger, last.at, p.ontime, now);
        checks::longer(left, late)
    }

    // A packet goes: it leaves the line and is noted as the last admission.
    fn admit(&mut self, p: Packet)
        requires given { Given self.old }
        requires len_lt_forty { self.old.ledger.len < forty }
        ensures { self.new ≡ state_of (admits (view_of self.old) p
            (without p.priority (items self.old.line))) }
    {
        let now = self.clock.time;
        self.line = line::remove(self.line, p.priority);
        note(&mut self.ledger, self.last.at, now, p.ontime);
        self.last = Last {
            at: now,
            ontime: p.ontime,
            admitted: 1,
        };
        self.counts.sent += 1;
    }

    // Whether a packet may go, and which.
    pub fn poll(mut self, stamp: u32) -> Outcome
        ensures { result ≡ call_on self (poll stamp) }
    {
        if let Err(refusal) = self.check(stamp) {
            return self.refused(refusal);
        }
        self.refresh(stamp);
        if self.line.len == 0 {
            return Outcome {
                state: self,
                answer: Answer::Idle,
            };
        }
        let p = line::pick(self.line);
        let left = self.left_for(p);
        if left != 0 {
            return Outcome {
                state: self,
                answer: Answer::Closed(left),
            };
        }
        self.admit(p);
        Outcome {
            state: self,
            answer: Answer::Sent(p),
        }
    }
}

// A record of a burst done on a state: an offer, or refused with 10.
fn offered(mut state: State, rec: Record) -> Outcome
    ensures { result ≡ offered_by state rec }
{
    if rec.kind != Record::OFFER {
        return state.refused(Refusal::BadKind);
    }
    state.offer(rec.offer(), rec.stamp)
}

// The offers of a slice of records, one after the other, with an answer byte for each.
pub fn burst(mut state: State, records: &[u8], answers: &mut [u8]) -> BurstTurn
    ensures number { result.number ≡ burst_number (length records.now)
        (length answers.old) }
    ensures state { result.state ≡ burst_state state records.now answers.old }
    ensures answers { answers.new ≡ burst_answers state records.now
        answers.old }
{
    if let Err(refusal) = calllog::check_burst(records.len(), answers.len()) {
        return BurstTurn {
            state,
            number: refusal.number(),
        };
    }
    let n = records.len() / RECORD_BYTES;
    // Each record and its answer have one index; a chain over both would read no plainer.
    for i in 0..n {
        let outcome = offered(state, records::record_at(records, RECORD_BYTES * i));
        state = outcome.state;
        answers[i] = calllog::answer_byte(outcome.answer);
    }
    BurstTurn { state, number: 0 }
}

// A state with nothing waiting, nothing admitted, no load and nothing counted.
fn blank_state(
    live: u32,
    oldway: u32,
    clock: Clock,
    profile: u32,
    tuning: Tuning,
    levels: Levels,
) -> State
    ensures { result ≡ state_of (blank live oldway clock (control_of profile tuning levels no_loads)) }
{
    let line = line::empty();
    let ledger = ledger::empty();
    let loads = Loads::none();
    State {
        line,
        ledger,
        loads,
        levels,
        clock,
        last: Last::default(),
        counts: Counts::default(),
        tuning,
        profile,
        oldway,
        live,
    }
}

// What a refused make gives: the all-zero, not live state.
fn refused_make(refusal: Refusal) -> Outcome
    ensures { result ≡ outcome (state_of not_live) (Refused (number_of refusal)) }
{
    let state = blank_state(0, 0, Clock::default(), 0, control::none(), Levels::none());
    Outcome {
        state,
        answer: Answer::from(refusal),
    }
}

// A fresh state; the all-zero one with the refusal of a bad profile, of a way that is neither 0 nor 1, or, in
// profile 5 alone, of a bad list.
pub fn make(profile: u32, oldway: u32, list: Levels, stamp: u32) -> Outcome
    ensures exact { result ≡ make_state (making_of profile oldway list stamp) }
    ensures same { Agrees result (making_of profile oldway list stamp) }
{
    if let Err(refusal) = checks::check_making(profile, oldway, list) {
        return refused_make(refusal);
    }
    let clock = Clock { time: 0, stamp };
    let tuning = control::fresh();
    let levels = control::list_kept(profile, list);
    let state = blank_state(1, oldway, clock, profile, tuning, levels);
    Outcome {
        state,
        answer: Answer::Ready,
    }
}

// What both engines ask of plain numbers: which packets, counts and admissions are sound, how the clock
// moves, what refuses an offer, how long until a packet may go. A profile and a way are numbers, as C hands
// them (`rules`).
#![tactic(auto)]

ghost use Rattle.std.specs.Prelude.{◌≡◌, ◌≤◌, max, IfOk};
ghost use Rattle.rules.specs.Tests.{all_of};
ghost use Rattle.rules.specs.Clock.{end_of_time};
ghost use Rattle.rules.specs.Refusals.{first_of, number_in};
ghost use Rattle.model.specs.Packets.{packet_of, unexpired, limit_rules};
ghost use Rattle.model.specs.State.{last_rules, count_rules};
ghost use Rattle.model.specs.Effects.{stepped};
ghost use Rattle.model.specs.Calls.{making_of};
ghost use Rattle.model.specs.Gate.{number_checks, make_checks};
ghost use Rattle.checks.specs.Checks.{left_at, is_zero, clock_number};

use machine::Levels;
use model::{Clock, Counts, Last, Offer, Packet};
use rules::refusal::Refusal;

// A call without its stamp. A sample, by words too, comes as its busy count and its probe count.
#[derive(Clone, Copy)]
pub enum Request {
    Count(u32, u32),
    Offered(Offer),
    Poll,
}

// Whether a packet, wherever it waits, is within its limits.
pub fn is_within_limits(p: Packet, profile: u32, now: u64) -> bool
    ensures { result ≡ all_of (limit_rules profile now p) }
{
    if !rules::allows_ontime(profile, p.ontime) {
        return false;
    }
    if !rules::lies_within(1, rules::LONGEST_LIFETIME, p.lifetime) {
        return false;
    }
    p.arrival <= now
}

// Whether a slot is unused. All is read, with no way out before the end: a line asks it of each place.
pub fn is_zero(p: Packet) -> bool
    ensures { result ≡ is_zero p }
{
    let numbers = p.id | p.priority | p.ontime | p.lifetime;
    (u64::from(numbers) | p.arrival) == 0
}

// Whether a packet is not expired.
pub fn is_unexpired(p: Packet, now: u64) -> bool
    ensures { result ≡ unexpired now p }
{
    let age = now.saturating_sub(p.arrival);
    age < u64::from(p.lifetime)
}

// Whether the last admission is within its limits.
pub fn is_last_sound(l: Last, profile: u32, now: u64) -> bool
    ensures { result ≡ all_of (last_rules profile now l) }
{
    if 1 < l.admitted {
        return false;
    }
    if now < l.at {
        return false;
    }
    if l.admitted == 1 {
        return rules::allows_ontime(profile, l.ontime);
    }
    if l.at != 0 {
        return false;
    }
    l.ontime == 0
}

// Whether so many that wait make the counts add up, accepted at most 10^15. Taken away and not summed, they
// can't wrap.
pub fn are_counts_sound(c: Counts, waiting: u64) -> bool
    ensures { result ≡ all_of (count_rules waiting c) }
{
    if rules::MOST_OFFERS < c.accepted {
        return false;
    }
    if c.accepted < c.sent {
        return false;
    }
    let rest = c.accepted - c.sent;
    if rest < c.expired {
        return false;
    }
    let kept = rest - c.expired;
    if kept < c.displaced {
        return false;
    }
    kept - c.displaced == waiting
}

// The clock moved to a stamp.
pub fn clock_at(c: Clock, stamp: u32) -> Clock
    requires { c.time ≤ end_of_time }
    ensures { result ≡ stepped c stamp }
{
    let step = rules::step(stamp, c.stamp);
    let time = rules::later(c.time, step);
    Clock { time, stamp }
}

// The clock moved to a stamp, unless the stamp goes back or the time would pass its end.
pub fn clock_after(given: Clock, stamp: u32) -> Result<Clock, Refusal>
    requires { given.time ≤ end_of_time }
    ensures number { number_in result ≡ clock_number given stamp }
    ensures moved { IfOk result (λ clock. clock ≡ stepped given stamp) }
{
    if rules::goes_back(rules::step(stamp, given.stamp)) {
        return Err(Refusal::ClockBack);
    }
    let clock = clock_at(given, stamp);
    if rules::passes_end(clock.time) {
        return Err(Refusal::ClockEnd);
    }
    Ok(clock)
}

// What refuses an offer for its own numbers.
#[tactic(auto, unfolding(rules::specs::Refusals::first_of))]
pub fn check_offer(profile: u32, o: Offer) -> Result<(), Refusal>
    ensures { number_in result ≡ first_of (number_checks profile o) }
{
    if rules::LAST_PRIORITY < o.priority {
        return Err(Refusal::BadPriority);
    }
    if !rules::allows_ontime(profile, o.ontime) {
        return Err(Refusal::BadOntime);
    }
    if !rules::lies_within(1, rules::LONGEST_LIFETIME, o.lifetime) {
        return Err(Refusal::BadLifetime);
    }
    Ok(())
}

// What refuses a make: 1 for a bad profile or a way that is neither 0 nor 1; 15 for a bad list, in profile 5
// alone. What lies past the list's levels isn't looked at.
#[tactic(auto, unfolding(rules::specs::Refusals::first_of))]
pub fn check_making(profile: u32, oldway: u32, list: Levels) -> Result<(), Refusal>
    ensures { number_in result ≡ first_of (make_checks (making_of profile oldway list 0)) }
{
    if !rules::lies_within(rules::FIRST_PROFILE, rules::LAST_PROFILE, profile) {
        return Err(Refusal::BadProfile);
    }
    if 1 < oldway {
        return Err(Refusal::BadProfile);
    }
    if control::is_list_refused(profile, list) {
        return Err(Refusal::BadList);
    }
    Ok(())
}

// The packet of an offer that comes now.
pub fn packet_of(o: Offer, now: u64) -> Packet
    ensures { result ≡ packet_of o now }
{
    Packet {
        id: o.id,
        priority: o.priority,
        ontime: o.ontime,
        lifetime: o.lifetime,
        arrival: now,
    }
}

// The µs left until a packet may go, 0 where one may go now. The gate stays closed for so long after an
// admission.
pub fn left_of(closed: u64, l: Last, now: u64) -> u64
    requires { l.at ≤ now }
    ensures { result ≡ left_at closed l now }
{
    if l.admitted != 1 {
        return 0;
    }
    let passed = now - l.at;
    closed.saturating_sub(passed)
}

// The greater of two waits: the library's, under the name that both engines' edits have.
pub fn longer(a: u64, b: u64) -> u64
    ensures { result ≡ max a b }
{
    a.max(b)
}

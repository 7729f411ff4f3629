// The ledger, the admissions of the last second in forty words: sound, aged, noted, and how long until the
// air allows a packet. A word is how long before the last admission its own came, times 4,096, plus its
// on-time; so a ledger is one array of numbers, lent where it lies and never copied. The array has its length
// beside it, since memory is fixed, with no heap; a gate keeps the two apart, by the C interface, so a call
// passes both.
#![tactic(auto)]

ghost use Rattle.std.specs.Prelude.{◌≡◌, [], ◌∷◌, ◌++◌, ◌<◌, ◌≤◌, ◌+◌, ◌-◌, leb, eqb, length, take};
ghost use Rattle.rules.specs.Clock.{end_of_time};
ghost use Rattle.packing.specs.Packing.{all_are, is_unused};
ghost use Rattle.model.specs.Ledger.{most_air, places, young_at, young, air_of, allowed_from, is_recent};
ghost use Rattle.ledger.specs.Layout.{age_in, ontime_in, read_from, packed, ledger_of, sound_ledger};
ghost use Rattle.ledger.specs.Layout.{young_from, well_kept, aged_in, without_oldest};
ghost use Rattle.ledger.specs.Layout.{put_newest, Movable, added, Timely, admission, items};
ghost use Rattle.ledger.specs.Layout.{Packed, InOrder};

use model::Last;

// The first `len` words hold the admissions, the oldest first; the others are zero. A type of its own: C has
// a name and a layout for it (presscurlew_plain.h).
#[repr(C)]
#[derive(Clone, Copy)]
pub struct Ledger {
    pub len: usize,
    pub slots: [u32; 40],
}

pub const FULL_AGE: u64 = 1000000;

pub const MOST_AIR: u64 = 30000;

pub const SPACING: u32 = 25000;

pub const UNIT: u32 = 4096;

// A ledger without admissions, whatever the base. By hand: the zeros show the room, which a derive would
// hide.
pub fn empty() -> Ledger
    ensures { result ≡ packed 0 [] }
{
    Ledger {
        len: 0,
        slots: [0; 40],
    }
}

// How long before the base a word's admission came: what 32 bits leave for it is 20.
fn age_in(word: u32) -> u32
    ensures { (result ≡ age_in word) × (result < 1048576) }
{
    word / UNIT
}

// A word's on-time.
fn ontime_in(word: u32) -> u32
    ensures { result ≡ ontime_in word }
{
    word % UNIT
}

// When a word's admission came.
fn time_in(base: u64, word: u32) -> u64
    ensures { result ≡ base - age_in word }
{
    base.saturating_sub(u64::from(age_in(word)))
}

// The earliest time at which an admission is young.
fn young_from(time: u64) -> u64
    ensures { result ≡ young_from time }
{
    time.saturating_sub(FULL_AGE - 1)
}

// Whether an admission of that time is young.
fn is_young(at: u64, time: u64) -> bool
    ensures { result ≡ young_at time at }
{
    time.saturating_sub(at) < FULL_AGE
}

// Whether the last admission is young enough to be in the ledger.
fn is_recent(last: Last, time: u64) -> bool
    ensures { result ≡ is_recent time last }
{
    last.admitted == 1 && is_young(last.at, time)
}

// 1 where a number is above another, else 0: a number, so that many tests are joined without a branch.
fn above(a: u32, b: u32) -> u32
    ensures { eqb result 0 ≡ leb a b }
{
    u32::from(b < a)
}

// Whether words are in step and their air time is allowed. All are read, with no way out before the end, so
// that four are read at once. They are as many of the forty as are used, so here and below a slice with its
// bound.
fn are_many_kept(words: &[u32], first: u32, most: u32) -> bool
    requires { length words.now ≤ 40 }
    ensures { result ≡ well_kept first most words.now }
{
    let mut bits: u32 = 0;
    let mut before = first;
    let mut air: u32 = 0;
    for &word in words {
        let age = age_in(word);
        let ontime = ontime_in(word);
        bits |= above(age + SPACING, before) | above(1, ontime) | above(ontime, most);
        before = age;
        air += ontime;
    }
    bits == 0 && u64::from(air) <= MOST_AIR
}

// The same, of a few words: for these one after the other, up to the first that is not in step, is faster. So
// two functions have one contract.
fn are_few_kept(words: &[u32], first: u32, most: u32) -> bool
    requires { length words.now ≤ 40 }
    ensures { result ≡ well_kept first most words.now }
{
    let mut before = first;
    let mut air: u32 = 0;
    for &word in words {
        let age = age_in(word);
        let ontime = ontime_in(word);
        if before < age + SPACING {
            return false;
        }
        if !rules::lies_within(1, most, ontime) {
            return false;
        }
        before = age;
        air += ontime;
    }
    u64::from(air) <= MOST_AIR
}

// Whether words are in step and their air time is allowed.
fn is_well_kept(words: &[u32], first: u32, most: u32) -> bool
    requires { length words.now ≤ 40 }
    ensures { result ≡ well_kept first most words.now }
{
    if words.len() < 10 {
        are_few_kept(words, first, most)
    } else {
        are_many_kept(words, first, most)
    }
}

// Whether a ledger is sound. Its base is the time of the last admission, which is the newest, so its word is
// just its on-time. The first word may be as old as is young now, and the others follow in step.
pub fn is_sound(n: usize, slots: &[u32; 40], profile: u32, time: u64, last: Last) -> bool
    requires time_le_end_of_time { time ≤ end_of_time }
    ensures { result ≡ sound_ledger profile time last (ledger_of n slots.now) }
{
    if n == 0 {
        if is_recent(last, time) {
            return false;
        }
        return machine::are_zero(slots);
    }
    if 40 < n {
        return false;
    }
    if !is_recent(last, time) {
        return false;
    }
    if time < last.at {
        return false;
    }
    let newest = slots[n - 1];
    if newest != last.ontime {
        return false;
    }
    if UNIT <= newest {
        return false;
    }
    let first = (last.at - young_from(time)) as u32 + SPACING;
    let most = rules::most_ontime(profile);
    if !is_well_kept(&slots[..n], first, most) {
        return false;
    }
    machine::are_zero(&slots[n..])
}

// How many have aged before the first that is young.
pub fn count_aged(n: usize, slots: &[u32; 40], base: u64, time: u64) -> usize
    requires n_bound { n ≤ 40 }
    ensures { result ≡ aged_in time base (take n slots.now) }
{
    let young = slots[..n]
        .iter()
        .position(|&word| is_young(time_in(base, word), time));
    young.unwrap_or(n)
}

// The n words without the k oldest; where k is 0 nothing is looked at.
pub fn drop_oldest(n: usize, slots: &mut [u32; 40], k: usize)
    requires n_bound { 0 < k → (n ≤ 40) × (k ≤ n) }
    ensures { slots.new ≡ without_oldest n k slots.old }
{
    if k == 0 {
        return;
    }
    slots.copy_within(k..n, 0);
    slots[n - k..].fill(0);
}

// An admission noted behind n, a gap after the last one, unless `more` is 0. It is the base from then on, so
// the others are older by the gap. `more` is a number, as `ledger/Layout: put_newest` has it.
pub fn put_newest(n: usize, slots: &mut [u32; 40], gap: u64, ontime: u32, more: usize)
    requires n_bound { 0 < more → (n < 40) × Movable gap (take n slots.old) }
    ensures { slots.new ≡ put_newest more n gap ontime slots.old }
{
    if more == 0 {
        return;
    }
    for word in &mut slots[..n] {
        *word += gap as u32 * UNIT;
    }
    slots[n] = ontime;
}

// The on-times added.
fn air_of(words: &[u32]) -> u32
    requires { added words.now ≤ most_air }
    ensures { result ≡ added words.now }
{
    words.iter().map(|&word| ontime_in(word)).sum()
}

// The time from which the air allows a packet, where `sum` is that of the admissions.
fn allowed_from(words: &[u32], base: u64, sum: u32, ontime: u32, time: u64) -> u64
    requires sum_value { sum ≡ air_of (read_from base words.now) }
    requires sum_le_most_air { sum ≤ most_air }
    requires timely { Timely (read_from base words.now) }
    ensures { result ≡ allowed_from ontime time (read_from base words.now) }
{
    let mut rest = u64::from(sum) + u64::from(ontime);
    let mut from = time;
    for &word in words {
        if rest <= MOST_AIR {
            return from;
        }
        from = time_in(base, word) + FULL_AGE;
        rest -= u64::from(ontime_in(word));
    }
    from
}

// The µs until the air allows a packet.
pub fn air_left(n: usize, slots: &[u32; 40], base: u64, ontime: u32, time: u64) -> u64
    requires n_bound { n ≤ 40 }
    requires slots_bound { air_of (read_from base (take n slots.now)) ≤ most_air }
    requires timely { Timely (read_from base (take n slots.now)) }
    ensures { result ≡ allowed_from ontime time (read_from base (take n slots.now)) - time }
{
    let words = &slots[..n];
    let from = allowed_from(words, base, air_of(words), ontime, time);
    from.saturating_sub(time)
}

// How many of n admissions are left without those that have aged. Their base is the time of the last one.
pub fn age(n: usize, slots: &mut [u32; 40], base: u64, time: u64) -> usize
    requires packed { Packed base (ledger_of n slots.old) }
    requires in_order { InOrder (items base (ledger_of n slots.old)) }
    ensures { ledger_of result slots.new
        ≡ packed base (young time (items base (ledger_of n slots.old))) }
{
    let gone = count_aged(n, slots, base, time);
    drop_oldest(n, slots, gone);
    n - gone
}

// One more admission behind n, none of which has aged. It is the last from then on: its time is the base.
pub fn note(n: usize, slots: &mut [u32; 40], base: u64, at: u64, ontime: u32)
    requires packed { Packed base (ledger_of n slots.old) }
    requires n_lt_places { n < places }
    requires base_le_at { base ≤ at }
    requires slots_value { young at (items base (ledger_of n slots.old))
        ≡ items base (ledger_of n slots.old) }
    ensures { ledger_of (n + 1) slots.new
        ≡ packed at (items base (ledger_of n slots.old) ++ (admission at ontime ∷ [])) }
{
    put_newest(n, slots, at - base, ontime, 1);
}

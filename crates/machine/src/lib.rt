// The first edition's state machine: its list of levels, its last loads, the level that a sample leaves, and
// the wait of a level (document 02, W-213). What reads numbers takes them as slices, with their count beside,
// so that a caller lends its arrays where they lie (the C interface); methods do the same for the structs.
// What is public answers for every input: a slice may have any length, so an array type would ask more. Only
// `note_load`, which writes, takes the 50 places that a struct has.
#![tactic(auto)]

ghost use Rattle.std.specs.Prelude.{◌≡◌, ◌≤◌, length, take, eqb};
ghost use Rattle.rules.specs.Profiles.{within};
ghost use Rattle.packing.specs.Packing.{all_are, filled, is_unused};
ghost use Rattle.machine.specs.Levels.{listed, levels_of, thresholds, wait_at, wait_of, rising};
ghost use Rattle.machine.specs.Levels.{good_list, sound_list, tidied, none_listed, no_levels};
ghost use Rattle.machine.specs.Loads.{loads, loads_of, noted, packed, sound_loads, none_held, no_loads};
ghost use Rattle.machine.specs.Loads.{noted_if};
ghost use Rattle.machine.specs.Moves.{least_of, greatest_of, low_of, high_of, highest};
ghost use Rattle.machine.specs.Moves.{level_after, moved_by};

// Up to 8 levels above level 0: how many, the wait of level 0, the threshold and the wait of each above it. A
// length beside arrays: the layout is C's, and memory is fixed, with no heap.
#[repr(C)]
#[derive(Clone, Copy, PartialEq, Eq)]
pub struct Levels {
    pub len: usize,
    pub wait: u32,
    pub above: [u32; 8],
    pub waits: [u32; 8],
}

// The last loads, the oldest first. A type of its own, with its length: C has a name and a layout for it
// (presscurlew_plain.h).
#[repr(C)]
#[derive(Clone, Copy)]
pub struct Loads {
    pub len: usize,
    pub slots: [u32; 50],
}

// What a sample leaves.
#[derive(Clone, Copy)]
pub struct Moved {
    pub level: u32,
    pub loads: Loads,
}

pub const MOST_LEVELS: usize = 8;

pub const LEAST_WAIT: u32 = rules::Profile5::LEAST_WAIT;

pub const MOST_WAIT: u32 = rules::Profile5::MOST_WAIT;

// Low is taken over so many loads, high over so many.
pub const LOW_OVER: usize = 10;

pub const HIGH_OVER: usize = 50;

// The bits of all numbers together. All are read, with no way out before the end, so that many are read at
// once.
fn bits_of(xs: &[u32]) -> u32
    ensures { eqb result 0 ≡ all_are is_unused xs.now }
{
    let mut bits: u32 = 0;
    for x in xs {
        bits |= *x;
    }
    bits
}

// Whether all numbers are 0.
pub fn are_zero(xs: &[u32]) -> bool
    ensures { result ≡ all_are is_unused xs.now }
{
    bits_of(xs) == 0
}

// Whether all numbers lie within two limits.
fn all_lie_within(xs: &[u32], low: u32, high: u32) -> bool
    ensures { result ≡ all_are (within low high) xs.now }
{
    xs.iter().all(|&x| rules::lies_within(low, high, x))
}

// Whether each number is above the one before it, and the first above 0.
fn do_rise(xs: &[u32]) -> bool
    ensures { result ≡ rising 0 xs.now }
{
    let mut before: u32 = 0;
    for x in xs {
        if *x <= before {
            return false;
        }
        before = *x;
    }
    true
}

// The least of some loads.
fn least(xs: &[u32]) -> u32
    ensures { result ≡ least_of xs.now }
{
    xs.iter().copied().min().unwrap_or(0)
}

// The greatest of some loads.
fn greatest(xs: &[u32]) -> u32
    ensures { result ≡ greatest_of xs.now }
{
    xs.iter().copied().max().unwrap_or(0)
}

// Zeros behind the first n places.
fn clear(n: usize, xs: &mut [u32])
    requires { n ≤ length xs.old }
    ensures { xs.new ≡ filled (length xs.old) 0 (take n xs.old) }
{
    xs[n..].fill(0);
}

// Whether a list of n levels keeps BAD-LIST's rules; what lies past the n is not looked at.
pub fn is_list_good<'a>(n: usize, own: u32, above: &'a [u32], waits: &'a [u32]) -> bool
    ensures { result ≡ good_list (levels_of n own above.now waits.now) }
{
    if n < 1 {
        return false;
    }
    if MOST_LEVELS < n {
        return false;
    }
    if above.len() < n {
        return false;
    }
    if waits.len() < n {
        return false;
    }
    if !rules::lies_within(LEAST_WAIT, MOST_WAIT, own) {
        return false;
    }
    if !do_rise(&above[..n]) {
        return false;
    }
    if !all_lie_within(&above[..n], 0, rules::FULL_LOAD) {
        return false;
    }
    all_lie_within(&waits[..n], LEAST_WAIT, MOST_WAIT)
}

// Whether a list of n levels is a sound state's: good, and its unused room zero.
pub fn is_list_sound<'a>(n: usize, own: u32, above: &'a [u32], waits: &'a [u32]) -> bool
    ensures { result ≡ sound_list (levels_of n own above.now waits.now) }
{
    if !is_list_good(n, own, above, waits) {
        return false;
    }
    if !are_zero(&above[n..]) {
        return false;
    }
    are_zero(&waits[n..])
}

// The wait of a level of n; one that is not of the list waits the longest.
pub fn wait(n: usize, own: u32, waits: &[u32], level: u32) -> u32
    ensures { result ≡ wait_at own (listed n waits.now) level }
{
    if level == 0 {
        return own;
    }
    let k = level as usize - 1;
    let m = n.min(MOST_LEVELS).min(waits.len());
    if m <= k {
        return MOST_WAIT;
    }
    waits[k]
}

// Whether n loads are a sound state's.
pub fn are_loads_sound(n: usize, slots: &[u32]) -> bool
    ensures { result ≡ sound_loads (loads_of n slots.now) }
{
    if HIGH_OVER < n {
        return false;
    }
    let m = n.min(slots.len());
    if !are_zero(&slots[m..]) {
        return false;
    }
    all_lie_within(&slots[..m], 0, rules::FULL_LOAD)
}

// Whether there are no loads, as in other profiles.
pub fn are_loads_none(n: usize, slots: &[u32]) -> bool
    ensures { result ≡ none_held (loads_of n slots.now) }
{
    if n != 0 {
        return false;
    }
    are_zero(slots)
}

// A load noted behind n others, in their place, unless `more` is 0; of 50 the oldest goes. How many there are
// then.
// `more` stays a number: the definition `noted_if`, which the clause names, takes one.
pub fn note_load(n: usize, slots: &mut [u32; 50], load: u32, more: usize) -> usize
    ensures { loads_of result slots.new ≡ noted_if more load (loads_of n slots.old) }
{
    if more == 0 {
        return n;
    }
    if n < 50 {
        clear(n, slots);
        slots[n] = load;
        return n + 1;
    }
    slots.copy_within(1.., 0);
    slots[49] = load;
    50
}

// The least of the last 10 of n loads, 0 before there are ten.
pub fn low(n: usize, slots: &[u32]) -> u32
    ensures { result ≡ low_of (take n slots.now) }
{
    let m = n.min(slots.len());
    if m < LOW_OVER {
        return 0;
    }
    least(&slots[m - LOW_OVER..m])
}

// The greatest of the last 50 of n loads, or of those there are.
pub fn high(n: usize, slots: &[u32]) -> u32
    ensures { result ≡ high_of (take n slots.now) }
{
    let m = n.min(slots.len());
    greatest(&slots[m.saturating_sub(HIGH_OVER)..m])
}

// The highest of n levels whose threshold a load reaches. Searched from the top, and not by halves: it
// answers for a list that does not rise, too (`AlwaysHighest`).
pub fn highest_reached(n: usize, above: &[u32], load: u32) -> u32
    ensures { result ≡ highest (listed n above.now) load }
{
    let m = n.min(MOST_LEVELS).min(above.len());
    for k in (0..m).rev() {
        if above[k] <= load {
            return k as u32 + 1;
        }
    }
    0
}

// The level after so many loads, the sample's among them: moved at once, and no further than is needed.
pub fn level_after<'a>(n: usize, above: &'a [u32], held: usize, slots: &'a [u32], level: u32) -> u32
    ensures { result ≡ level_after (listed n above.now) (take held slots.now) level }
{
    let up = highest_reached(n, above, low(held, slots));
    let down = highest_reached(n, above, high(held, slots));
    level.max(up).min(down)
}

impl Levels {
    // No levels. By hand: `[0; 8]` shows the room, which a derived `Default` would hide.
    pub fn none() -> Levels
        ensures { result ≡ no_levels }
    {
        Levels {
            len: 0,
            wait: 0,
            above: [0; 8],
            waits: [0; 8],
        }
    }

    // Whether the list keeps BAD-LIST's rules.
    pub fn is_good(self) -> bool
        ensures { result ≡ good_list self }
    {
        is_list_good(self.len, self.wait, &self.above, &self.waits)
    }

    // Whether the list is a sound state's.
    pub fn is_sound(self) -> bool
        ensures { result ≡ sound_list self }
    {
        is_list_sound(self.len, self.wait, &self.above, &self.waits)
    }

    // Whether there is no list, as in other profiles. All is read, with no way out before the end.
    pub fn is_none(self) -> bool
        ensures { result ≡ none_listed self }
    {
        let above = are_zero(&self.above);
        let waits = are_zero(&self.waits);
        (self.len == 0) & (self.wait == 0) & above & waits
    }

    // The list as a state keeps it: the levels that it has, and zeros behind them.
    pub fn tidy(mut self) -> Levels
        ensures { result ≡ tidied self }
    {
        let n = self.len.min(MOST_LEVELS);
        self.len = n;
        clear(n, &mut self.above);
        clear(n, &mut self.waits);
        self
    }

    // The wait of a level.
    pub fn wait(self, level: u32) -> u32
        ensures { result ≡ wait_of self level }
    {
        wait(self.len, self.wait, &self.waits, level)
    }

    // The highest level whose threshold a load reaches.
    pub fn highest(self, load: u32) -> u32
        ensures { result ≡ highest (thresholds self) load }
    {
        highest_reached(self.len, &self.above, load)
    }

    // The level after the loads held, the sample's among them.
    pub fn level_after(self, held: Loads, level: u32) -> u32
        ensures { result ≡ level_after (thresholds self) (loads held) level }
    {
        level_after(self.len, &self.above, held.len, &held.slots, level)
    }

    // What a sample leaves: its load is noted, and counts.
    pub fn sample(self, held: Loads, level: u32, load: u32) -> Moved
        ensures { result ≡ moved_by self held level load }
    {
        let loads = held.note(load);
        Moved {
            level: self.level_after(loads, level),
            loads,
        }
    }
}

impl Loads {
    // No loads. By hand, as with levels.
    pub fn none() -> Loads
        ensures { result ≡ no_loads }
    {
        Loads {
            len: 0,
            slots: [0; 50],
        }
    }

    // Whether the loads are a sound state's.
    pub fn is_sound(self) -> bool
        ensures { result ≡ sound_loads self }
    {
        are_loads_sound(self.len, &self.slots)
    }

    // Whether there are no loads.
    pub fn is_none(self) -> bool
        ensures { result ≡ none_held self }
    {
        are_loads_none(self.len, &self.slots)
    }

    // The loads with one more; of 50 the oldest goes.
    pub fn note(mut self, load: u32) -> Loads
        ensures { result ≡ packed (noted (loads self) load) }
    {
        self.len = note_load(self.len, &mut self.slots, load, 1);
        self
    }

    // The least of the last 10, 0 before there are ten.
    pub fn low(self) -> u32
        ensures { result ≡ low_of (loads self) }
    {
        low(self.len, &self.slots)
    }

    // The greatest of the last 50, or of those there are.
    pub fn high(self) -> u32
        ensures { result ≡ high_of (loads self) }
    {
        high(self.len, &self.slots)
    }
}

// Packets that wait, in rows that are lent where they lie. A queue is sixteen words and five times: how many
// wait; then the id, the on-time and the lifetime of each of five places, the oldest first; and when each
// came. Places that are not used are zero. Four queues stand one behind the other, queue 0 first. What nearly
// every call does counts in 32 bits: in 64, a small processor takes half as many instructions again.
// The words and the times are two parameters, as the C interface lends two rows: a struct of two `&mut` would
// owe a clause for each reference in every contract.
#![tactic(auto)]

ghost use Rattle.std.specs.Prelude.{◌≡◌, ◌&&◌, [], ◌∷◌, ◌++◌, map, ◌<◌, ◌≤◌, ◌-◌, length, take, drop, set};
ghost use Rattle.std.specs.Prelude.{get_or};
ghost use Rattle.rules.specs.Profiles.{room};
ghost use Rattle.packing.specs.Packing.{all_are, is_unused};
ghost use Rattle.waiting.specs.Layout.{rows, Sized, cell_at, len_in, put_at, cells, items, packed, Packed};
ghost use Rattle.waiting.specs.Layout.{ZeroFrom, is_live, alive, is_zero, cell_sound, place_sound};
ghost use Rattle.waiting.specs.Layout.{sound_queue, sound_queues, queues, queue_of, changed, laid, Held};
ghost use Rattle.waiting.specs.Layout.{count_in, found_from};

// The queues, one a priority; the places of one; and its words: the length, and three of each place.
pub const QUEUES: usize = 4;

pub const PLACES: usize = 5;

pub const WORDS: usize = 16;

// What stands in a place: a packet but for its priority, which is its queue's number. No Packet: the rows
// that C lends have no place for a priority.
#[derive(Clone, Copy, PartialEq, Eq, Default)]
pub struct Cell {
    pub id: u32,
    pub ontime: u32,
    pub lifetime: u32,
    pub arrival: u64,
}

// What a search finds: a queue's number, and its first live packet.
#[derive(Clone, Copy)]
pub struct Found {
    pub queue: usize,
    pub cell: Cell,
}

// The rows of one queue are lent as slices, whose sizes are asked for. `first_chunk_mut` gives arrays, in an
// Option: after `unwrap` no proof knows what was written, and a `match` has an arm that is never taken.

// How many wait.
fn len(words: &[u32]) -> usize
    requires { length words.now ≡ 16 }
    ensures { result ≡ get_or words.now 0 0 }
{
    words[0] as usize
}

// How many wait, written.
fn put_len(words: &mut [u32], n: usize)
    requires words_len { length words.old ≡ 16 }
    requires n_le_room { n ≤ room }
    ensures { words.new ≡ set words.old 0 n }
{
    words[0] = n as u32;
}

// What stands in a place.
fn cell_at(words: &[u32], came: &[u64], i: usize) -> Cell
    requires sized { Sized 1 (rows words.now came.now) }
    requires i_lt_room { i < room }
    ensures { result ≡ cell_at (rows words.now came.now) i }
{
    let w = 1 + 3 * i;
    Cell {
        id: words[w],
        ontime: words[w + 1],
        lifetime: words[w + 2],
        arrival: came[i],
    }
}

// A place written.
fn put(words: &mut [u32], came: &mut [u64], i: usize, c: Cell)
    requires sized { Sized 1 (rows words.old came.old) }
    requires i_lt_room { i < room }
    ensures { rows words.new came.new
        ≡ put_at i c (rows words.old came.old) }
{
    let w = 1 + 3 * i;
    words[w] = c.id;
    words[w + 1] = c.ontime;
    words[w + 2] = c.lifetime;
    came[i] = c.arrival;
}

// Whether a place is unused.
fn is_zero(c: Cell) -> bool
    ensures { result ≡ is_zero c }
{
    c == Cell::default()
}

// Whether a packet is not expired. As `checks::is_unexpired`, of a cell: one for both would take its two
// numbers, and read no plainer.
fn is_live(c: Cell, time: u64) -> bool
    ensures { result ≡ is_live time c }
{
    time.saturating_sub(c.arrival) < u64::from(c.lifetime)
}

// Whether a packet is within its limits and came no earlier than the one before it.
fn is_cell_sound(c: Cell, most: u32, time: u64, since: u64) -> bool
    ensures { result ≡ cell_sound most time since c }
{
    if !rules::lies_within(1, most, c.ontime) {
        return false;
    }
    if !rules::lies_within(1, rules::LONGEST_LIFETIME, c.lifetime) {
        return false;
    }
    if time < c.arrival {
        return false;
    }
    since <= c.arrival
}

// Whether a place holds a sound packet where it is used, and nothing where it isn't.
fn is_place_sound(c: Cell, used: bool, most: u32, time: u64, since: u64) -> bool
    ensures { result ≡ place_sound most time since used c }
{
    if used {
        return is_cell_sound(c, most, time, since);
    }
    is_zero(c)
}

// Whether all times are 0. All are read, with no way out before the end, so that many are read at once. The
// same of 32 bits is `machine::are_zero`: one for both wants a trait with laws, and is longer than the two.
fn are_times_zero(came: &[u64]) -> bool
    ensures { result ≡ all_are is_unused came.now }
{
    let mut bits: u64 = 0;
    for t in came {
        bits |= *t;
    }
    bits == 0
}

// Whether all of a queue is zero.
fn is_queue_zero(words: &[u32], came: &[u64]) -> bool
    ensures { result ≡ (all_are is_unused words.now && all_are is_unused came.now) }
{
    if !machine::are_zero(words) {
        return false;
    }
    are_times_zero(came)
}

// Whether a queue is sound: its length, its packets, and zeros behind them. Mostly nothing waits, and then
// all of it is zero.
fn is_queue_sound(words: &[u32], came: &[u64], most: u32, time: u64) -> bool
    requires { Sized 1 (rows words.now came.now) }
    ensures { result ≡ sound_queue most time (rows words.now came.now) }
{
    let n = len(words);
    if n == 0 {
        return is_queue_zero(words, came);
    }
    if PLACES < n {
        return false;
    }
    let mut since: u64 = 0;
    for i in 0..PLACES {
        let c = cell_at(words, came, i);
        if !is_place_sound(c, i < n, most, time, since) {
            return false;
        }
        since = c.arrival;
    }
    true
}

// Zeros in the places from n up to m, and n as the length. From m on all is zero already.
fn clear(words: &mut [u32], came: &mut [u64], n: usize, m: usize)
    requires sized { Sized 1 (rows words.old came.old) }
    requires n_le_m { n ≤ m }
    requires m_le_room { m ≤ room }
    requires zero_from { ZeroFrom m (rows words.old came.old) }
    ensures { rows words.new came.new
        ≡ packed (take n (cells (rows words.old came.old))) }
{
    for i in n..m {
        put(words, came, i, Cell::default());
    }
    put_len(words, n);
}

// What stands in a place put in an earlier one as well, unless that is the same.
fn move_to(words: &mut [u32], came: &mut [u64], from: usize, to: usize)
    requires sized { Sized 1 (rows words.old came.old) }
    requires to_le_from { to ≤ from }
    requires from_lt_room { from < room }
    ensures { rows words.new came.new
        ≡ put_at to (cell_at (rows words.old came.old) from)
        (rows words.old came.old) }
{
    if to == from {
        return;
    }
    let c = cell_at(words, came, from);
    put(words, came, to, c);
}

// Whether no packet of a queue is expired.
fn are_live(words: &[u32], came: &[u64], time: u64) -> bool
    requires sized { Sized 1 (rows words.now came.now) }
    requires came_bound { len_in (rows words.now came.now) ≤ room }
    ensures { result ≡ all_are (is_live time) (items (rows words.now came.now)) }
{
    (0..words[0]).all(|i| is_live(cell_at(words, came, i as usize), time))
}

// A queue without its expired packets; how many went. Mostly none is expired, and then nothing is written.
fn expire(words: &mut [u32], came: &mut [u64], time: u64) -> usize
    requires sized { Sized 1 (rows words.old came.old) }
    requires packed { Packed (rows words.old came.old) }
    requires came_bound { len_in (rows words.old came.old) ≤ room }
    ensures gone { result ≡ length (items (rows words.old came.old))
        - length (alive time (items (rows words.old came.old))) }
    ensures left { rows words.new came.new
        ≡ packed (alive time (items (rows words.old came.old))) }
{
    if are_live(words, came, time) {
        return 0;
    }
    let n = len(words);
    let mut left: usize = 0;
    for i in 0..n {
        if is_live(cell_at(words, came, i), time) {
            move_to(words, came, i, left);
            left += 1;
        }
    }
    clear(words, came, left, n);
    n - left
}

// A packet at the back.
fn push(words: &mut [u32], came: &mut [u64], c: Cell)
    requires sized { Sized 1 (rows words.old came.old) }
    requires packed { Packed (rows words.old came.old) }
    requires came_bound { len_in (rows words.old came.old) < room }
    ensures { rows words.new came.new
        ≡ packed (items (rows words.old came.old) ++ (c ∷ [])) }
{
    let n = len(words);
    put(words, came, n, c);
    put_len(words, n + 1);
}

// The front packet taken away.
fn pop(words: &mut [u32], came: &mut [u64])
    requires sized { Sized 1 (rows words.old came.old) }
    requires packed { Packed (rows words.old came.old) }
    requires came_bound { len_in (rows words.old came.old) ≤ room }
    ensures { rows words.new came.new
        ≡ packed (drop 1 (items (rows words.old came.old))) }
{
    let n = len(words);
    if n == 0 {
        return;
    }
    let left = (n - 1) as u32;
    for i in 0..left {
        move_to(words, came, i as usize + 1, i as usize);
    }
    clear(words, came, left as usize, n);
}

// How many are not expired.
fn count_live(words: &[u32], came: &[u64], time: u64) -> usize
    requires sized { Sized 1 (rows words.now came.now) }
    requires came_bound { len_in (rows words.now came.now) ≤ room }
    ensures { result ≡ length (alive time (items (rows words.now came.now))) }
{
    (0..len(words))
        .filter(|i| is_live(cell_at(words, came, *i), time))
        .count()
}

// Whether all four queues are sound.
pub fn are_queues_sound(words: &[u32; 64], came: &[u64; 20], profile: u32, time: u64) -> bool
    ensures { result ≡ sound_queues profile time (rows words.now came.now) }
{
    let most = rules::most_ontime(profile);
    (0..QUEUES).all(|k| {
        let a = WORDS * k;
        let b = PLACES * k;
        is_queue_sound(&words[a..a + WORDS], &came[b..b + PLACES], most, time)
    })
}

// How many wait in queue k. Here and below a queue's number is an offer's priority, which C hands in: so its
// bound is a clause and no type.
pub fn len_of(words: &[u32; 64], came: &[u64; 20], k: usize) -> usize
    requires held { Held (rows words.now came.now) }
    requires k_bound { k < 4 }
    ensures { result ≡ length (queue_of (queues (rows words.now came.now)) k) }
{
    let a = WORDS * k;
    len(&words[a..a + WORDS])
}

// How many wait.
pub fn count(words: &[u32; 64], came: &[u64; 20]) -> u64
    requires { Held (rows words.now came.now) }
    ensures { result ≡ count_in (queues (rows words.now came.now)) }
{
    (0..QUEUES).map(|k| len_of(words, came, k) as u64).sum()
}

// How many of queue k are not expired.
pub fn count_live_of(words: &[u32; 64], came: &[u64; 20], k: usize, time: u64) -> usize
    requires held { Held (rows words.now came.now) }
    requires k_bound { k < 4 }
    ensures { result ≡ length (alive time
        (queue_of (queues (rows words.now came.now)) k)) }
{
    let a = WORDS * k;
    let b = PLACES * k;
    count_live(&words[a..a + WORDS], &came[b..b + PLACES], time)
}

// Every queue without its expired packets; how many went.
pub fn expire_all(words: &mut [u32; 64], came: &mut [u64; 20], time: u64) -> u64
    requires { Held (rows words.old came.old) }
    ensures gone { result ≡ count_in (queues (rows words.old came.old))
        - count_in (map (alive time) (queues (rows words.old came.old))) }
    ensures left { rows words.new came.new
        ≡ laid (map (alive time) (queues (rows words.old came.old))) }
{
    let mut gone: u64 = 0;
    for k in 0..QUEUES as u32 {
        let a = WORDS * k as usize;
        let b = PLACES * k as usize;
        gone += expire(&mut words[a..a + WORDS], &mut came[b..b + PLACES], time) as u64;
    }
    gone
}

// A packet at the back of queue k.
pub fn push_to(words: &mut [u32; 64], came: &mut [u64; 20], k: usize, c: Cell)
    requires held { Held (rows words.old came.old) }
    requires k_bound { k < 4 }
    requires k_len_bound { length (queue_of (queues (rows words.old came.old)) k) < room }
    ensures { rows words.new came.new
        ≡ laid (changed k (λ q. q ++ (c ∷ [])) (queues (rows words.old came.old))) }
{
    let a = WORDS * k;
    let b = PLACES * k;
    push(&mut words[a..a + WORDS], &mut came[b..b + PLACES], c);
}

// The front packet of queue k taken away.
pub fn pop_from(words: &mut [u32; 64], came: &mut [u64; 20], k: usize)
    requires held { Held (rows words.old came.old) }
    requires k_bound { k < 4 }
    ensures { rows words.new came.new
        ≡ laid (changed k (drop 1) (queues (rows words.old came.old))) }
{
    let a = WORDS * k;
    let b = PLACES * k;
    pop(&mut words[a..a + WORDS], &mut came[b..b + PLACES]);
}

// The first live packet of the lowest-numbered queue that has one. Two loops, left by a label: document 01
// names this form.
pub fn choose(words: &[u32; 64], came: &[u64; 20], time: u64) -> Option<Found>
    requires { Held (rows words.now came.now) }
    ensures { result ≡ found_from time 0 (queues (rows words.now came.now)) }
{
    let mut found = None;
    'search: for k in 0..QUEUES {
        let a = WORDS * k;
        let b = PLACES * k;
        let q = &words[a..a + WORDS];
        let t = &came[b..b + PLACES];
        let n = len(q);
        for i in 0..n {
            let c = cell_at(q, t, i);
            if is_live(c, time) {
                found = Some(Found { queue: k, cell: c });
                break 'search;
            }
        }
    }
    found
}

// One list of up to 20 packets in order of arrival: push, count, expire, pick, remove, sound.
#![tactic(auto)]

ghost use Rattle.std.specs.Prelude.{◌≡◌, true, ◌&&◌, [], ◌∷◌, ◌≤◌, leb, length, drop};
ghost use Rattle.std.specs.List.{list_all};
ghost use Rattle.model.specs.Packets.{without_expired, in_order};
ghost use Rattle.line.specs.Line.{count_of, goes_next, without, allowed_packet, at_most_five};
ghost use Rattle.line.specs.Layout.{places, items, packed, Packed, pushed, tidy, sound_line};

use model::Packet;

// The first `len` places hold the waiting packets in order of arrival; the others are zero. By hand, a length
// beside an array: the layout is C's, and memory is fixed, with no heap.
#[repr(C)]
#[derive(Clone, Copy)]
pub struct Line {
    pub len: usize,
    pub packets: [Packet; 20],
}

pub const PLACES: usize = 20;

pub const MOST_OF_A_PRIORITY: usize = 5;

// A line without packets. By hand: it shows the room, which a derive would hide.
pub fn empty() -> Line
    ensures { result ≡ packed [] }
{
    Line {
        len: 0,
        packets: [Packet::default(); PLACES],
    }
}

// The packets that wait: never more than a line has places, whatever its length says.
fn waiting(l: &Line) -> &[Packet]
    ensures { (result.now ≡ items l.now) × (length result.now ≤ places) }
{
    &l.packets[..l.len.min(PLACES)]
}

// One more packet, the last to come, where the line lies; a full one stays as it is.
fn keep(l: &mut Line, p: Packet)
    ensures { l.new ≡ pushed p l.old }
{
    if l.len < PLACES {
        l.packets[l.len] = p;
        l.len += 1;
    }
}

// One more packet, the last to come; a full line stays as it is.
pub fn push(mut l: Line, p: Packet) -> Line
    ensures { result ≡ pushed p l }
{
    keep(&mut l, p);
    l
}

// How many of a priority wait in a line that is lent.
fn count(l: &Line, priority: u32) -> usize
    ensures { result ≡ count_of priority (items l.now) }
{
    waiting(l).iter().filter(|p| p.priority == priority).count()
}

// How many of a priority wait.
pub fn count_of(l: Line, priority: u32) -> usize
    ensures { result ≡ count_of priority (items l) }
{
    count(&l, priority)
}

// The line without its expired packets.
pub fn expire(l: Line, now: u64) -> Line
    ensures { result ≡ packed (without_expired now (items l)) }
{
    let mut left = empty();
    for &p in waiting(&l) {
        if checks::is_unexpired(p, now) {
            keep(&mut left, p);
        }
    }
    left
}

// The packet with the lowest priority number, of those the first to come; of an empty line the blank packet.
pub fn pick(l: Line) -> Packet
    ensures { result ≡ goes_next (items l) }
{
    let packets = waiting(&l);
    packets
        .iter()
        .copied()
        .min_by_key(|p| p.priority)
        .unwrap_or(Packet::default())
}

// The line without the first packet of a priority.
pub fn remove(l: Line, priority: u32) -> Line
    ensures { result ≡ packed (without priority (items l)) }
{
    let mut left = empty();
    let mut gone = false;
    for &p in waiting(&l) {
        if !gone && p.priority == priority {
            gone = true;
        } else {
            keep(&mut left, p);
        }
    }
    left
}

// Whether a waiting packet is within its limits and came no earlier than the one before it.
fn is_packet_sound(p: Packet, profile: u32, now: u64, since: u64) -> bool
    ensures { result ≡ (allowed_packet profile now p && leb since p.arrival) }
{
    p.priority <= rules::LAST_PRIORITY
        && checks::is_within_limits(p, profile, now)
        && since <= p.arrival
}

// Whether the packets are within their limits and in order of arrival.
fn are_packets_sound(l: &Line, profile: u32, now: u64) -> bool
    ensures { result ≡ in_order (allowed_packet profile now) 0 (items l.now) }
{
    let mut since = 0;
    for &p in waiting(l) {
        if !is_packet_sound(p, profile, now, since) {
            return false;
        }
        since = p.arrival;
    }
    true
}

// Whether the length is within the places, and the unused ones are zero.
fn is_tidy(l: &Line) -> bool
    ensures { result ≡ tidy l.now }
{
    l.len <= PLACES && l.packets[l.len..].iter().all(|&p| checks::is_zero(p))
}

// Whether at most five packets wait of each priority.
fn are_counts_sound(l: &Line) -> bool
    ensures { result ≡ list_all (λ k. at_most_five k (items l.now)) (0 ∷ 1 ∷ 2 ∷ 3 ∷ []) }
{
    (0..=rules::LAST_PRIORITY).all(|priority| count(l, priority) <= MOST_OF_A_PRIORITY)
}

// Whether a line is sound; one that is holds nothing but its packets.
pub fn is_sound(l: Line, profile: u32, now: u64) -> bool
    ensures exact { result ≡ sound_line profile now l }
    ensures tight { result ≡ true → Packed l }
{
    is_tidy(&l) && are_packets_sound(&l, profile, now) && are_counts_sound(&l)
}

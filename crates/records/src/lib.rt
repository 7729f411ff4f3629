// A call's record in the log: its 16 bytes read and, in `writer`, written (document 01, "The call log and its
// program").
#![tactic(auto)]

ghost use Rattle.std.specs.Prelude.{◌≡◌, ◌+◌, ◌≤◌, ◌<◌, ◌⊎◌, leb, length, MatchOption};
ghost use Rattle.checks.specs.Checks.{call_of};
ghost use Rattle.records.specs.Records.{record_bytes, two_at, four_at, record_at, whole_record_at};
ghost use Rattle.records.specs.Records.{probes_in, profile_in, calls, offer_in, asked_by};

use checks::Request;
use model::Offer;

pub mod writer;

// A record's fields. Of a make, `priority` is the profile and `lifetime` says which way it is made; of a
// sample, `id` is the busy count and `lifetime` the probe count, or 0.
#[derive(Clone, Copy, Default)]
pub struct Record {
    pub kind: u32,
    pub priority: u32,
    pub ontime: u32,
    pub lifetime: u32,
    pub id: u32,
    pub stamp: u32,
}

pub const RECORD_BYTES: usize = 16;

// Whether so many bytes have a record's 16 from a place on.
fn has_record(bytes: usize, at: usize) -> bool
    ensures { result ≡ leb (at + record_bytes) bytes }
{
    at.checked_add(RECORD_BYTES).is_some_and(|end| end <= bytes)
}

// Two functions: `from_le_bytes` is one of u16 and one of u32, and a generic one would read no plainer.
fn two_bytes(log: &[u8], at: usize) -> u32
    requires { at + 2 ≤ length log.now }
    ensures { result ≡ two_at log.now at }
{
    u32::from(u16::from_le_bytes([log[at], log[at + 1]]))
}

fn four_bytes(log: &[u8], at: usize) -> u32
    requires { at + 4 ≤ length log.now }
    ensures { result ≡ four_at log.now at }
{
    u32::from_le_bytes([log[at], log[at + 1], log[at + 2], log[at + 3]])
}

// The record that starts at `at`.
pub fn read_record(log: &[u8], at: usize) -> Record
    requires { at + 16 ≤ length log.now }
    ensures { result ≡ record_at log.now at }
{
    let kind = u32::from(log[at]);
    let priority = u32::from(log[at + 1]);
    let ontime = two_bytes(log, at + 2);
    let lifetime = four_bytes(log, at + 4);
    let id = four_bytes(log, at + 8);
    let stamp = four_bytes(log, at + 12);
    Record {
        kind,
        priority,
        ontime,
        lifetime,
        id,
        stamp,
    }
}

// The record that starts at `at`, and one of zeros where the log has no whole record there.
pub fn record_at(log: &[u8], at: usize) -> Record
    ensures { result ≡ whole_record_at log.now at }
{
    if !has_record(log.len(), at) {
        return Record::default();
    }
    read_record(log, at)
}

// The probes of a sample's record: a lifetime field of 0 stands for 1,000.
fn probes_in(lifetime: u32) -> u32
    ensures { result ≡ probes_in lifetime }
{
    rules::pick(lifetime == 0, rules::USUAL_PROBES, lifetime)
}

// The profile that a make's record asks for. No record has room for profile 5's list, so that one which says
// 5 asks for profile 0, and is refused as that is.
pub fn profile_in(priority: u32) -> u32
    ensures { result ≡ profile_in priority }
{
    rules::pick(priority == rules::LISTED, 0, priority)
}

// The call of a record that is neither a make nor unknown.
pub fn request_of(rec: Record) -> Request
    requires kind_nonzero { 0 < rec.kind }
    requires kind_bound { rec.kind ≤ 3 }
    ensures { asked_by rec ≡ calls (call_of result rec.stamp) }
{
    match rec.kind {
        Record::SAMPLE => Request::Count(rec.id, probes_in(rec.lifetime)),
        Record::OFFER => Request::Offered(rec.offer()),
        _ => Request::Poll,
    }
}

impl Record {
    // The kinds. A log's byte may be of none of them, so `kind` is a number.
    pub const MAKE: u32 = 0;

    pub const SAMPLE: u32 = 1;

    pub const OFFER: u32 = 2;

    pub const POLL: u32 = 3;

    // Its fields as an offer's, whatever its kind. No From: not every record is an offer.
    pub fn offer(self) -> Offer
        ensures { result ≡ offer_in self }
    {
        Offer {
            id: self.id,
            priority: self.priority,
            ontime: self.ontime,
            lifetime: self.lifetime,
        }
    }

    // The call that it asks: none of a make, and none of an unknown kind.
    pub fn request(self) -> Option<Request>
        ensures { MatchOption result ((self.kind ≡ 0) ⊎ (3 < self.kind))
            (λ request. asked_by self ≡ calls (call_of request self.stamp)) }
    {
        if self.kind == Record::MAKE {
            return None;
        }
        if Record::POLL < self.kind {
            return None;
        }
        Some(request_of(self))
    }
}

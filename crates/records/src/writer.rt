// The writer of the call log: from a call with its arguments to its record (document 02, W-206). A log and a
// place come apart, as C hands them, and `Wrote` speaks of both.
ghost use Rattle.std.specs.Prelude.{◌≡◌, cond, ◌+◌, ◌≤◌, eqb, length};
ghost use Rattle.rules.specs.Refusals.{first_of, number_in};
ghost use Rattle.machine.specs.Levels.{no_levels};
ghost use Rattle.model.specs.Calls.{words, count, offer, poll, making_of};
ghost use Rattle.records.specs.Records.{makes, calls};
ghost use Rattle.records.specs.Buffers.{written};
ghost use Rattle.records.specs.Writing.{little_endian, bytes_of, make_widths, offer_widths};
ghost use Rattle.records.specs.Writing.{place_checks, probes_field, sample_record, unless_refused, Wrote};

use crate::{Record, has_record};
use model::Offer;
use rules::refusal::Refusal;

// The greatest numbers of a field of one byte and of two. By hand, no TryFrom: that a number fits is asked,
// and no byte is made here.
const MOST_IN_BYTE: u32 = 255;

const MOST_IN_TWO: u32 = 65535;

// Puts the lowest bytes of a number from `at` on, as many as its field has. One by one: `copy_from_slice`
// compares addresses as numbers, which no module of a board may (docs/BOARDS.md).
fn put<const BYTES: usize>(log: &mut [u8], at: usize, n: u32)
    requires width { BYTES ≤ 4 }
    requires room { at + BYTES ≤ length log.old }
    ensures { log.new ≡ written log.old at (little_endian BYTES n) }
{
    let bytes = n.to_le_bytes();
    for i in 0..BYTES {
        log[at + i] = bytes[i];
    }
}

// Puts a record's 16 bytes from `at` on.
fn put_record(log: &mut [u8], at: usize, rec: Record)
    requires { at + 16 ≤ length log.old }
    ensures { log.new ≡ written log.old at (bytes_of rec) }
{
    put::<1>(log, at, rec.kind);
    put::<1>(log, at + 1, rec.priority);
    put::<2>(log, at + 2, rec.ontime);
    put::<4>(log, at + 4, rec.lifetime);
    put::<4>(log, at + 8, rec.id);
    put::<4>(log, at + 12, rec.stamp);
}

// Whether a place has room for a record.
fn check_place(bytes: usize, at: usize) -> Result<(), Refusal>
    ensures { number_in result ≡ first_of (place_checks bytes at) }
{
    if !has_record(bytes, at) {
        return Err(Refusal::NoRoom);
    }
    Ok(())
}

// Writes a record, unless its place is refused.
fn write_record(rec: Record, log: &mut [u8], at: usize) -> Result<(), Refusal>
    ensures number { number_in result ≡ first_of (place_checks (length log.old) at) }
    ensures bytes { log.new ≡ unless_refused (number_in result) log.old at rec }
{
    check_place(log.len(), at)?;
    put_record(log, at, rec);
    Ok(())
}

// Profile 5 needs a list, for which a record has no field.
fn check_make(profile: u32, oldway: u32) -> Result<(), Refusal>
    ensures { number_in result ≡ first_of (make_widths profile oldway) }
{
    if MOST_IN_BYTE < profile {
        return Err(Refusal::BadProfile);
    }
    if profile == rules::LISTED {
        return Err(Refusal::BadProfile);
    }
    if 1 < oldway {
        return Err(Refusal::BadProfile);
    }
    Ok(())
}

// A lifetime always fits its four bytes.
fn check_offer(o: Offer) -> Result<(), Refusal>
    ensures { number_in result ≡ first_of (offer_widths o) }
{
    if MOST_IN_BYTE < o.priority {
        return Err(Refusal::BadPriority);
    }
    if MOST_IN_TWO < o.ontime {
        return Err(Refusal::BadOntime);
    }
    Ok(())
}

// Writes a make at a place of a log. A make's list is left out of its record.
pub fn write_make(
    profile: u32,
    oldway: u32,
    stamp: u32,
    log: &mut [u8],
    at: usize,
) -> Result<(), Refusal>
    ensures { Wrote log.old at
        (makes (making_of profile oldway no_levels stamp)) (number_in result) log.new }
{
    check_make(profile, oldway)?;
    let rec = Record {
        kind: Record::MAKE,
        priority: profile,
        lifetime: oldway,
        stamp,
        ..Record::default()
    };
    write_record(rec, log, at)
}

// The lifetime field of a sample: its probe count, and 0 for 1,000.
fn probes_field(probes: u32) -> u32
    ensures { result ≡ probes_field probes }
{
    rules::pick(probes == rules::USUAL_PROBES, 0, probes)
}

fn sample_record(busy: u32, probes: u32, stamp: u32) -> Record
    ensures { result ≡ sample_record stamp busy probes }
{
    Record {
        kind: Record::SAMPLE,
        lifetime: probes_field(probes),
        id: busy,
        stamp,
        ..Record::default()
    }
}

// A busy count and a probe count always fit their four bytes; but 0 probes would be read as 1,000.
fn check_count(probes: u32) -> Result<(), Refusal>
    ensures { number_in result ≡ cond (eqb probes 0) 4 0 }
{
    if probes == 0 {
        return Err(Refusal::BadSample);
    }
    Ok(())
}

// Writes a sample by words, as the one by its busy count.
pub fn write_sample_words(
    probes: u32,
    ws: &[u64],
    stamp: u32,
    log: &mut [u8],
    at: usize,
) -> Result<(), Refusal>
    ensures { Wrote log.old at (calls (words stamp probes ws.now)) (number_in result)
        log.new }
{
    let busy = rules::read_sample(probes, ws).ok_or(Refusal::BadSample)?;
    write_record(sample_record(busy, probes, stamp), log, at)
}

// Writes a sample by its busy count, of so many probes.
pub fn write_sample_count(
    busy: u32,
    probes: u32,
    stamp: u32,
    log: &mut [u8],
    at: usize,
) -> Result<(), Refusal>
    ensures { Wrote log.old at (calls (count stamp busy probes)) (number_in result) log.new }
{
    check_count(probes)?;
    write_record(sample_record(busy, probes, stamp), log, at)
}

// Writes an offer.
pub fn write_offer(o: Offer, stamp: u32, log: &mut [u8], at: usize) -> Result<(), Refusal>
    ensures { Wrote log.old at (calls (offer stamp o)) (number_in result) log.new }
{
    check_offer(o)?;
    let rec = Record {
        kind: Record::OFFER,
        priority: o.priority,
        ontime: o.ontime,
        lifetime: o.lifetime,
        id: o.id,
        stamp,
    };
    write_record(rec, log, at)
}

// Writes a poll.
pub fn write_poll(stamp: u32, log: &mut [u8], at: usize) -> Result<(), Refusal>
    ensures { Wrote log.old at (calls (poll stamp)) (number_in result) log.new }
{
    let rec = Record {
        kind: Record::POLL,
        stamp,
        ..Record::default()
    };
    write_record(rec, log, at)
}

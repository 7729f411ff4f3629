// The call log's writer for a C or Rust host: each call's record at a place of a lent buffer (document 02,
// W-206). Each is the call of `records::writer` of its name, with what refuses it as a number: C needs
// exported functions of its own.
ghost use Rattle.machine.specs.Levels.{no_levels};
ghost use Rattle.model.specs.Calls.{words, count, offer, poll, making_of};
ghost use Rattle.records.specs.Records.{makes, calls};
ghost use Rattle.records.specs.Writing.{Wrote};

use model::Offer;
use rules::refusal::number_in;

// Writes a make; gives 0, or the refusal, which writes nothing. `oldway` is 1 for the old way, 0 for the new.
// Its list is left out, and profile 5, which needs one, is refused.
#[unsafe(no_mangle)]
pub extern "C" fn presscurlew_write_make(
    profile: u32,
    oldway: u32,
    stamp: u32,
    log: &mut [u8],
    at: usize,
) -> u32
    ensures { Wrote log.old at
        (makes (making_of profile oldway no_levels stamp)) result log.new }
{
    number_in(records::writer::write_make(profile, oldway, stamp, log, at))
}

// Writes a sample of so many probes by words, as the one by its busy count.
#[unsafe(no_mangle)]
pub extern "C" fn presscurlew_write_sample_words(
    probes: u32,
    ws: &[u64],
    stamp: u32,
    log: &mut [u8],
    at: usize,
) -> u32
    ensures { Wrote log.old at (calls (words stamp probes ws.now)) result
        log.new }
{
    number_in(records::writer::write_sample_words(probes, ws, stamp, log, at))
}

// Writes a sample by its busy count, of so many probes.
#[unsafe(no_mangle)]
pub extern "C" fn presscurlew_write_sample_count(
    busy: u32,
    probes: u32,
    stamp: u32,
    log: &mut [u8],
    at: usize,
) -> u32
    ensures { Wrote log.old at (calls (count stamp busy probes)) result log.new }
{
    number_in(records::writer::write_sample_count(busy, probes, stamp, log, at))
}

// Writes an offer.
#[unsafe(no_mangle)]
pub extern "C" fn presscurlew_write_offer(
    id: u32,
    priority: u32,
    ontime: u32,
    lifetime: u32,
    stamp: u32,
    log: &mut [u8],
    at: usize,
) -> u32
    ensures { Wrote log.old at (calls (offer stamp
        (record { id = id; priority = priority; ontime = ontime; lifetime = lifetime }))) result
        log.new }
{
    let o = Offer {
        id,
        priority,
        ontime,
        lifetime,
    };
    number_in(records::writer::write_offer(o, stamp, log, at))
}

// Writes a poll.
#[unsafe(no_mangle)]
pub extern "C" fn presscurlew_write_poll(stamp: u32, log: &mut [u8], at: usize) -> u32
    ensures { Wrote log.old at (calls (poll stamp)) result log.new }
{
    number_in(records::writer::write_poll(stamp, log, at))
}

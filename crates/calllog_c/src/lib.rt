// The burst of offers for a C host: the library calllog's call under its name in C.
#![tactic(auto)]

ghost use Rattle.std.specs.Prelude.{◌≡◌, length};
ghost use Rattle.gate.specs.Kept.{state_in};
ghost use Rattle.calllog.specs.Bursts.{burst_number, burst_state, burst_answers};

// A burst of offers in one call.
#[unsafe(no_mangle)]
pub extern "C" fn presscurlew_gate_burst<'a>(
    wide: &mut [u64; 6],
    narrow: &mut [u32; 16],
    queues: &mut [u32; 64],
    came: &mut [u64; 20],
    air: &mut [u32; 40],
    loads: &mut [u32; 50],
    above: &'a [u32; 8],
    waits: &'a [u32; 8],
    records: &[u8],
    answers: &mut [u8],
) -> u32
    ensures number { result ≡ burst_number (length records.now) (length
        answers.old) }
    ensures state { state_in wide.new narrow.new queues.new
        came.new air.new loads.new above.now waits.now
        ≡ burst_state (state_in wide.old narrow.old queues.old
        came.old air.old loads.old above.now
        waits.now) records.now answers.old }
    ensures answers { answers.new ≡ burst_answers (state_in wide.old
        narrow.old queues.old came.old air.old
        loads.old above.now waits.now) records.now
        answers.old }
{
    calllog::presscurlew_gate_burst(
        wide, narrow, queues, came, air, loads, above, waits, records, answers,
    )
}

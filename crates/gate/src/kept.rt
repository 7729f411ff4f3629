// A gate's numbers where a host keeps them: six of 64 bits, and sixteen of 32. The C interface has their
// places, so each is read and written at its own.
ghost use Rattle.std.specs.Prelude.{◌≡◌};
ghost use Rattle.gate.specs.Kept.{head_in};

use crate::Head;
use control::Tuning;
use model::{Clock, Counts, Last};

// The head that lies there.
pub fn head_at(wide: &[u64; 6], narrow: &[u32; 16]) -> Head
    ensures { result ≡ head_in wide.now narrow.now }
{
    let clock = Clock {
        time: wide[0],
        stamp: narrow[0],
    };
    let last = Last {
        at: wide[1],
        ontime: narrow[1],
        admitted: narrow[2],
    };
    let counts = Counts {
        accepted: wide[2],
        sent: wide[3],
        expired: wide[4],
        displaced: wide[5],
    };
    let tuning = Tuning {
        level: narrow[3],
        duty: narrow[4],
        smoothed: narrow[5],
        kept: narrow[6],
        pairing: narrow[7],
        latest: narrow[8],
    };
    Head {
        clock,
        last,
        counts,
        tuning,
        profile: narrow[11],
        oldway: narrow[12],
        live: narrow[13],
        admissions: narrow[9],
        loads: narrow[10],
        levels: narrow[14],
        calm: narrow[15],
    }
}

// Puts a head there.
pub fn keep(h: Head, wide: &mut [u64; 6], narrow: &mut [u32; 16])
    ensures { head_in wide.new narrow.new ≡ h }
{
    wide[0] = h.clock.time;
    wide[1] = h.last.at;
    wide[2] = h.counts.accepted;
    wide[3] = h.counts.sent;
    wide[4] = h.counts.expired;
    wide[5] = h.counts.displaced;
    narrow[0] = h.clock.stamp;
    narrow[1] = h.last.ontime;
    narrow[2] = h.last.admitted;
    narrow[3] = h.tuning.level;
    narrow[4] = h.tuning.duty;
    narrow[5] = h.tuning.smoothed;
    narrow[6] = h.tuning.kept;
    narrow[7] = h.tuning.pairing;
    narrow[8] = h.tuning.latest;
    narrow[9] = h.admissions;
    narrow[10] = h.loads;
    narrow[11] = h.profile;
    narrow[12] = h.oldway;
    narrow[13] = h.live;
    narrow[14] = h.levels;
    narrow[15] = h.calm;
}

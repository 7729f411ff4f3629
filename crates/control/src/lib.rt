// What samples steer: how it starts, whether it is sound, what a sample does to it, how long it keeps the
// gate closed. A profile and a tuning are passed apart, as a state has them; a profile is a number and
// `pairing` a flag, as C hands them (the C interface). What is public here answers for every number, so an
// enum would ask more.
#![tactic(auto)]

ghost use Rattle.std.specs.Prelude.{◌≡◌, ◌&&◌, eqb, ◌≤◌};
ghost use Rattle.rules.specs.Profiles.{profile3, full_load};
ghost use Rattle.machine.specs.Levels.{bad_list};
ghost use Rattle.machine.specs.Loads.{loads_of};
ghost use Rattle.control.specs.Control.{control_of, fresh_tuning, no_tuning, latest_sound, top_of};
ghost use Rattle.control.specs.Control.{tuning_sound, listing_sound, sound_control, Steerable};
ghost use Rattle.control.specs.Control.{list_kept, tuned};
ghost use Rattle.control.specs.Wait.{wait_with, closed_with};

use machine::{Levels, Loads};

// What samples change. `pairing` is 1 while a sample is kept, else 0; `latest` is the latest load in profile
// 4, else 0.
#[repr(C)]
#[derive(Clone, Copy, Default)]
pub struct Tuning {
    pub level: u32,
    pub duty: u32,
    pub smoothed: u32,
    pub kept: u32,
    pub pairing: u32,
    pub latest: u32,
}

// What a gate starts with.
pub fn fresh() -> Tuning
    ensures { result ≡ fresh_tuning }
{
    Tuning {
        duty: rules::Profile3::LEAST_DUTY,
        ..none()
    }
}

// All zero.
pub fn none() -> Tuning
    ensures { result ≡ no_tuning }
{
    Tuning::default()
}

// Whether a latest load is one that a profile keeps.
fn is_latest_sound(profile: u32, latest: u32) -> bool
    ensures { result ≡ latest_sound profile latest }
{
    if profile == rules::HARMONISED {
        return latest <= rules::FULL_LOAD;
    }
    latest == 0
}

// The highest level of a profile: its list's in profile 5.
fn top_of(profile: u32, listed: usize) -> usize
    ensures { result ≡ top_of profile listed }
{
    if profile == rules::LISTED {
        return listed;
    }
    rules::TOP_LEVEL as usize
}

// Whether what samples change is within its limits, beside a list of so many levels.
pub fn is_tuning_sound(profile: u32, t: Tuning, listed: usize) -> bool
    ensures { result ≡ tuning_sound profile listed t }
{
    if !rules::lies_within(rules::FIRST_PROFILE, rules::LAST_PROFILE, profile) {
        return false;
    }
    if top_of(profile, listed) < t.level as usize {
        return false;
    }
    if !rules::lies_within(
        rules::Profile3::LEAST_DUTY,
        rules::Profile3::MOST_DUTY,
        t.duty,
    ) {
        return false;
    }
    if rules::FULL_LOAD < t.smoothed {
        return false;
    }
    if rules::FULL_LOAD < t.kept {
        return false;
    }
    if !is_latest_sound(profile, t.latest) {
        return false;
    }
    match t.pairing {
        0 => t.kept == 0,
        1 => profile == rules::ADAPTIVE,
        _ => false,
    }
}

// Whether a list of n levels and so many loads are sound in profile 5, and nothing in another.
pub fn is_listing_sound(profile: u32, levels: Levels, held: usize, slots: &[u32]) -> bool
    ensures { result ≡ listing_sound profile levels (loads_of held slots.now) }
{
    if profile == rules::LISTED {
        if !levels.is_sound() {
            return false;
        }
        return machine::are_loads_sound(held, slots);
    }
    if !levels.is_none() {
        return false;
    }
    machine::are_loads_none(held, slots)
}

// Whether what samples steer is sound.
pub fn is_sound(profile: u32, t: Tuning, levels: Levels, loads: Loads) -> bool
    ensures { result ≡ sound_control (control_of profile t levels loads) }
{
    if !is_tuning_sound(profile, t, levels.len) {
        return false;
    }
    is_listing_sound(profile, levels, loads.len, &loads.slots)
}

// Whether a make is refused for its list: in profile 5 alone.
pub fn is_list_refused(profile: u32, list: Levels) -> bool
    ensures { result ≡ (eqb profile 5 && bad_list list) }
{
    if profile != rules::LISTED {
        return false;
    }
    !list.is_good()
}

// The list that a make leaves in the state.
pub fn list_kept(profile: u32, list: Levels) -> Levels
    ensures { result ≡ list_kept profile list }
{
    if profile != rules::LISTED {
        return Levels::none();
    }
    list.tidy()
}

// What samples change after a sample; `moved` is the level that its loads move profile 5's to.
pub fn tuning_after(profile: u32, t: Tuning, moved: u32, load: u32) -> Tuning
    requires steerable { Steerable profile t }
    requires load_le_full_load { load ≤ full_load }
    ensures { result ≡ tuned profile t moved load }
{
    let mut next = t;
    if rules::lies_within(rules::FIRST_PROFILE, rules::LAST_REACTIVE, profile) {
        let table = rules::reactive_of(profile);
        let wanted = table.wanted(load);
        next.level = rules::level_step(t.level, wanted);
        return next;
    }
    if profile == rules::HARMONISED {
        next.latest = load;
        return next;
    }
    if profile == rules::LISTED {
        next.level = moved;
        return next;
    }
    if t.pairing == 1 {
        let smoothed = rules::smooth(t.smoothed, t.kept, load);
        next.duty = rules::next_duty(t.duty, smoothed);
        next.smoothed = smoothed;
        next.kept = 0;
        next.pairing = 0;
        return next;
    }
    next.kept = load;
    next.pairing = 1;
    next
}

// The wait of a profile, by the on-time of the last admission; `listed` is that of profile 5's list.
pub fn wait(profile: u32, t: Tuning, listed: u32, ontime: u32) -> u32
    requires steerable { Steerable profile t }
    requires ontime_le_ontime { ontime ≤ profile3.limits.ontime }
    ensures { result ≡ wait_with profile t listed ontime }
{
    match profile {
        1 => rules::Profile1::constants().wait(t.level),
        2 => rules::Profile2::constants().wait(t.level),
        3 => rules::adaptive_wait(ontime, t.duty),
        4 => rules::harmonised_wait(ontime, t.latest),
        _ => listed,
    }
}

// How long after an admission the gate stays closed.
pub fn closed_after(profile: u32, t: Tuning, listed: u32, ontime: u32) -> u64
    requires steerable { Steerable profile t }
    requires ontime_le_ontime { ontime ≤ profile3.limits.ontime }
    ensures { result ≡ closed_with profile t listed ontime }
{
    let start = u64::from(rules::wait_start(profile, ontime));
    let wait = u64::from(wait(profile, t, listed, ontime));
    start + wait
}

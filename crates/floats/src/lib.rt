// The bench's floating update (document 02, W-211): one update in f64, a fixed sequence of operations, each
// rounded once. It is for the simulation group, and no part of the gate.
#![tactic(auto)]

ghost use Rattle.std.specs.Prelude.{◌≡◌, true};
ghost use Rattle.std.specs.Bool.{then_some};
ghost use Rattle.floats.specs.Doubles.{smaller, larger, held_within, compares_as};
ghost use Rattle.floats.specs.Update.{smoothed_of, offset_of, duty_of, is_load, is_duty};
ghost use Rattle.floats.specs.Update.{accepted, float_answer, WithinLimits};

// The refusal number: there is one, and C gets it as a number.
pub const BAD_FLOAT: u32 = 14;

// The limits of the duty.
pub const LEAST_DUTY: f64 = 0.0006;

pub const MOST_DUTY: f64 = 0.03;

// A smoothed load and a duty, or a refusal number above 0. By hand, a number beside values: it is C's.
#[repr(C)]
#[derive(Clone, Copy)]
pub struct FloatAnswer {
    pub refusal: u32,
    pub smoothed: f64,
    pub duty: f64,
}

// The smaller of two. By hand, as `most_of` is: `f64::min` promises either of two that compare equal, and the
// other one where one is not-a-number; here it is always y.
fn least_of(x: f64, y: f64) -> f64
    ensures { result ≡ smaller x y }
{
    if x < y { x } else { y }
}

// The larger of two.
fn most_of(x: f64, y: f64) -> f64
    ensures { result ≡ larger x y }
{
    if y < x { x } else { y }
}

// The smoothed load after a pair of samples.
fn smooth(smoothed: f64, kept: f64, new: f64) -> f64
    ensures { result ≡ smoothed_of smoothed kept new }
{
    let old = 0.5 * smoothed;
    let sum = kept + new;
    let mean = sum / 2.0;
    let fresh = 0.5 * mean;
    old + fresh
}

// x held within two limits.
fn hold(x: f64, low: f64, high: f64) -> f64
    ensures { result ≡ held_within low high x }
{
    let raised = most_of(x, low);
    least_of(raised, high)
}

// What is added to the duty at a smoothed load. The product has the sign of the difference, so that only the
// limit on its side can hold it, and both may be applied: a branch on the sign is guessed wrong where loads
// go from one side of the target to the other.
fn offset(smoothed: f64) -> f64
    ensures { result ≡ offset_of smoothed }
{
    let difference = 0.68 - smoothed;
    let product = difference * 0.0012;
    hold(product, -0.00025, 0.0005)
}

// The duty after an update, at the smoothed load after it.
fn next_duty(duty: f64, smoothed: f64) -> f64
    ensures { result ≡ duty_of duty smoothed }
{
    let faded = (1.0 - 0.016) * duty;
    let moved = faded + offset(smoothed);
    hold(moved, LEAST_DUTY, MOST_DUTY)
}

// Whether x compares as low to high. Not-a-number compares as nothing.
fn compares_as(low: f64, high: f64, x: f64) -> bool
    ensures { result ≡ compares_as low high x }
{
    (low <= x) & (x <= high)
}

fn is_load(x: f64) -> bool
    ensures { result ≡ is_load x }
{
    compares_as(0.0, 1.0, x)
}

fn is_duty(x: f64) -> bool
    ensures { result ≡ is_duty x }
{
    compares_as(LEAST_DUTY, MOST_DUTY, x)
}

// Whether nothing is refused. All tests are made, with no branch between them: several are then made at once.
// By hand, four numbers apart: C passes them so, and a struct would be built for two calls alone.
fn is_accepted(duty: f64, smoothed: f64, kept: f64, new: f64) -> bool
    ensures { result ≡ accepted
        (record { duty = duty; smoothed = smoothed; kept = kept; new = new }) }
{
    is_duty(duty) & is_load(smoothed) & is_load(kept) & is_load(new)
}

// The smoothed load and the duty after a pair of samples; none where a number is refused.
fn updated(duty: f64, smoothed: f64, kept: f64, new: f64) -> Option<(f64, f64)>
    ensures { result ≡ then_some
        (accepted (record { duty = duty; smoothed = smoothed; kept = kept; new = new }))
        (smoothed_of smoothed kept new, duty_of duty (smoothed_of smoothed kept new)) }
{
    if !is_accepted(duty, smoothed, kept, new) {
        return None;
    }
    let next = smooth(smoothed, kept, new);
    Some((next, next_duty(duty, next)))
}

// One update: the smoothed load and the duty after a pair of samples.
#[unsafe(no_mangle)]
pub extern "C" fn presscurlew_float_update(
    duty: f64,
    smoothed: f64,
    kept: f64,
    new: f64,
) -> FloatAnswer
    ensures exact { result ≡ float_answer
        (record { duty = duty; smoothed = smoothed; kept = kept; new = new }) }
    ensures within { WithinLimits result }
{
    match updated(duty, smoothed, kept, new) {
        Some((smoothed, duty)) => FloatAnswer {
            refusal: 0,
            smoothed,
            duty,
        },
        None => FloatAnswer {
            refusal: BAD_FLOAT,
            smoothed: 0.0,
            duty: 0.0,
        },
    }
}

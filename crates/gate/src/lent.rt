// A gate where a host keeps it: its numbers and its rows, lent. A call changes the numbers and the first four
// rows where they lie, and only reads the list.
ghost use Rattle.std.specs.Prelude.{◌≡◌, true};
ghost use Rattle.checks.specs.Checks.{call_of};
ghost use Rattle.gate.specs.Layout.{LaidOut, sound_state, Roomy, Given, outcome, call_on};
ghost use Rattle.gate.specs.Lent.{state_on, SameRows};

use crate::Head;
use checks::Request;
use model::Answer;
use rules::refusal::Refusal;

#[derive(Drop)]
pub struct Gate<'a> {
    pub head: &'a mut Head,
    pub queues: &'a mut [u32; 64],
    pub came: &'a mut [u64; 20],
    pub air: &'a mut [u32; 40],
    pub loads: &'a mut [u32; 50],
    pub above: &'a [u32; 8],
    pub waits: &'a [u32; 8],
}

impl Gate<'_> {
    // Whether the state is sound; one that is holds nothing but what it says.
    pub fn is_sound(&self) -> bool
        ensures exact { result ≡ sound_state (state_on self.now) }
        ensures tight { result ≡ true → LaidOut (state_on self.now) }
        ensures given { result ≡ true → Given (state_on self.now) }
    {
        self.head.is_sound(
            self.queues,
            self.came,
            self.air,
            self.loads,
            self.above,
            self.waits,
        )
    }

    // One call on a state that is known to be sound: it is not tested again. What is refused changes nothing.
    pub fn step_sound(&mut self, request: Request, stamp: u32) -> Answer
        requires { Given (state_on self.old) }
        ensures done { outcome (state_on self.new) result
            ≡ call_on (state_on self.old) (call_of request stamp) }
        ensures lent { SameRows self.old self.new }
        ensures roomy { Roomy (state_on self.new) }
    {
        if let Err(refusal) = self.head.check(self.queues, self.came, request, stamp) {
            return Answer::from(refusal);
        }
        self.head.advance(self.air, stamp);
        if let Request::Count(busy, probes) = request {
            self.head
                .steer(self.loads, self.above, rules::load(busy, probes));
            return Answer::Taken;
        }
        self.head.clear(self.queues, self.came);
        if let Request::Offered(o) = request {
            self.head.join(self.queues, self.came, o);
            return Answer::Taken;
        }
        self.head
            .serve(self.queues, self.came, self.air, self.waits)
    }

    // One call. A state that is not sound is refused with 9.
    pub fn step(&mut self, request: Request, stamp: u32) -> Answer
        ensures done { outcome (state_on self.new) result
            ≡ call_on (state_on self.old) (call_of request stamp) }
        ensures lent { SameRows self.old self.new }
    {
        if !self.is_sound() {
            return Answer::from(Refusal::NoState);
        }
        self.step_sound(request, stamp)
    }
}

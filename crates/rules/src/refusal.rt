// Why a call is refused, each reason with its number (document 01, "Refusal numbers"; document 02).
ghost use Rattle.std.specs.Prelude.{◌≡◌};
ghost use Rattle.rules.specs.Refusals.{number_of, number_in};

// The reasons of the calls on a state and of the log. The C rules on plain numbers have their own (`cstack`).
#[derive(Clone, Copy, PartialEq, Eq)]
pub enum Refusal {
    BadProfile = 1,
    ClockBack = 2,
    ClockEnd = 3,
    BadSample = 4,
    BadPriority = 5,
    BadOntime = 6,
    BadLifetime = 7,
    QueueFull = 8,
    NoState = 9,
    BadKind = 10,
    Spent = 11,
    NoRoom = 12,
    TornLog = 13,
    BadList = 15,
}

impl Refusal {
    // Its number.
    pub fn number(self) -> u32
        ensures { result ≡ number_of self }
    {
        self as u32
    }
}

// The number that a check comes to: 0 where nothing is refused.
pub fn number_in(checked: Result<(), Refusal>) -> u32
    ensures { result ≡ number_in checked }
{
    match checked {
        Ok(()) => 0,
        Err(refusal) => refusal.number(),
    }
}

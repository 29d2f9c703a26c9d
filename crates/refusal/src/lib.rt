#![tactic(auto)]

ghost use Rattle.std.specs.Prelude.{◌≡◌};
ghost use Rattle.refusal.specs.Sheet.{number_of, asked};

// The refusal sheet: why a call was refused. The names are document 01's; Short, of document 02, is ours.
#[derive(Clone, Copy, Debug, PartialEq, Eq)]
pub enum Refusal {
    Board,
    Budget,
    Register,
    FrameOver,
    PlanCut,
    NoBand,
    Kind,
    Length,
    Field,
    First,
    Lines,
    Room,
    Address,
    State,
    Short,
}

// The state after a call, and what the call reports: where it is refused the state is as it was handed in.
#[derive(Clone, Copy)]
pub struct After<S, T> {
    pub state: S,
    pub report: Result<T, Refusal>,
}

// The test of a refusal. A chain of these, each with a `?`, is the order of the refusals.
pub fn ask(holds: bool, why: Refusal) -> Result<(), Refusal>
    ensures { result ≡ asked holds why }
{
    if holds { Ok(()) } else { Err(why) }
}

impl Refusal {
    // The number that the desk knows a refusal by.
    pub fn number(self) -> u8
        ensures { result ≡ number_of self }
    {
        match self {
            Refusal::Board => 1,
            Refusal::Budget => 2,
            Refusal::Register => 3,
            Refusal::FrameOver => 4,
            Refusal::PlanCut => 5,
            Refusal::NoBand => 6,
            Refusal::Kind => 7,
            Refusal::Length => 8,
            Refusal::Field => 9,
            Refusal::First => 10,
            Refusal::Lines => 11,
            Refusal::Room => 13,
            Refusal::Address => 14,
            Refusal::State => 15,
            Refusal::Short => 17,
        }
    }
}

// Why a run stops before it gives a value, and what it leaves of the budgets.
ghost use Rattle.std.specs.Prelude.{◌≡◌};
ghost use Rattle.language.specs.Charging.{stop_at};
ghost use Rattle.language.specs.declared.stops.Stop.TheVariants.{Bottom};
ghost use Rattle.language.specs.Stops.{number_of_stop};

use super::Meter;

// Bottom, or a budget that is spent. Each has the number that the answer table gives it.
#[derive(Clone, Copy, Debug, PartialEq, Eq)]
pub enum Stop {
    Bottom = 21,
    StepsSpent = 22,
    NamesSpent = 23,
    CellsSpent = 24,
}

impl From<Stop> for u32 {
    ghost from_gives = { λ w n. n ≡ number_of_stop w };

    fn from(why: Stop) -> u32 {
        why as u32
    }
}

// A run that stopped: why, and what was left then.
#[derive(Clone, Copy, Debug, PartialEq, Eq)]
pub struct Stopped {
    pub meter: Meter,
    pub why: Stop,
}

impl Stopped {
    // Bottom, with this left.
    pub fn bottom(meter: Meter) -> Stopped
        ensures { result ≡ stop_at Bottom meter }
    {
        Stopped {
            why: Stop::Bottom,
            meter,
        }
    }
}

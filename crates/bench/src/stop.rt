// Why a run ends early.
ghost use Rattle.std.specs.Prelude.{◌≡◌};
ghost use Rattle.refusals.specs.declared.refusal.Refusal.TheVariants.{UnknownName as Unknown};
ghost use Rattle.bench.specs.declared.stop.Stop.TheVariants.{Refused as Declined};

use refusals::refusal::{Refusal, UnknownName};
use std::alloc::{AllocError, AllocFailed};
use std::io;

#[derive(Debug, Drop)]
pub enum Stop {
    // The argument is not `time`.
    Usage,
    // A call was refused, or there was nothing under an id.
    Refused(Refusal),
    Absent,
    // The laps stayed too short to be told apart.
    TooShort,
    NoMemory,
    Failed(io::Error),
}

impl From<Refusal> for Stop {
    ghost from_gives = { λ refusal stop. stop ≡ Declined refusal };

    fn from(refusal: Refusal) -> Stop {
        Stop::Refused(refusal)
    }
}

impl From<UnknownName> for Stop {
    ghost from_gives = { λ unknown stop. stop ≡ Declined (Unknown unknown.number) };

    fn from(unknown: UnknownName) -> Stop {
        Stop::Refused(unknown.into())
    }
}

impl From<AllocError> for Stop {
    fn from(_: AllocError) -> Stop {
        Stop::NoMemory
    }
}

impl<T: Drop> From<AllocFailed<T>> for Stop {
    fn from(_: AllocFailed<T>) -> Stop {
        Stop::NoMemory
    }
}

impl From<io::Error> for Stop {
    fn from(error: io::Error) -> Stop {
        Stop::Failed(error)
    }
}

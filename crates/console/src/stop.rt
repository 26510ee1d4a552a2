ghost use Rattle.std.specs.Prelude.{◌≡◌};
ghost use Rattle.refusals.specs.declared.refusal.Refusal.TheVariants.{UnknownName as Unlisted};
ghost use Rattle.console.specs.Printed.{wrong_text};
ghost use Rattle.console.specs.declared.stop.Stop.TheVariants.{Wrong as Broken, Refused as Declined, NoMemory as Exhausted};

use refusals::refusal::{Refusal, UnknownName};
use std::alloc::{AllocError, AllocFailed};

// What is wrong with a line that is no call.
#[derive(Clone, Copy)]
pub enum Wrong {
    UnknownCall,
    MissingWord,
    ExtraWord,
    BadPercent,
    BadNumber,
    BadRoom,
    BadEntity,
    BadScope,
    BadEffect,
    BadNode,
    BadSet,
    SameSet,
    BadKind,
    BadMerge,
    OtherBook,
    LateClause,
}

impl Wrong {
    // What the console says of it.
    pub(crate) fn text(self) -> &'static str
        ensures { result.now ≡ wrong_text self }
    {
        match self {
            Wrong::UnknownCall => "unknown call",
            Wrong::MissingWord => "too few words",
            Wrong::ExtraWord => "too many words",
            Wrong::BadPercent => "bad percent code",
            Wrong::BadNumber => "no number from 0 to 65535",
            Wrong::BadRoom => "a room is a number",
            Wrong::BadEntity => "an entity is TYPE/EID",
            Wrong::BadScope => "no such scope",
            Wrong::BadEffect => "an effect is permit or forbid",
            Wrong::BadNode => "no such node",
            Wrong::BadSet => "a set is A or B",
            Wrong::SameSet => "a set is merged into the other",
            Wrong::BadKind => "a policy is static or link",
            Wrong::BadMerge => "a merge is to rename or refuse",
            Wrong::OtherBook => "a script has clauses or trees, not both",
            Wrong::LateClause => "clauses come before the first call on a set",
        }
    }
}

// What stops a line.
#[derive(Clone, Copy)]
pub enum Stop {
    // The line is no call.
    Wrong(Wrong),
    // The call was refused.
    Refused(Refusal),
    // There is no memory for the answer.
    NoMemory,
}

impl From<Wrong> for Stop {
    ghost from_gives = { λ wrong r. r ≡ Broken wrong };

    fn from(wrong: Wrong) -> Stop {
        Stop::Wrong(wrong)
    }
}

impl From<Refusal> for Stop {
    ghost from_gives = { λ refusal r. r ≡ Declined refusal };

    fn from(refusal: Refusal) -> Stop {
        Stop::Refused(refusal)
    }
}

impl From<UnknownName> for Stop {
    ghost from_gives = { λ unknown r. r ≡ Declined (Unlisted unknown.number) };

    fn from(unknown: UnknownName) -> Stop {
        Stop::Refused(Refusal::UnknownName(unknown.number))
    }
}

impl From<AllocError> for Stop {
    ghost from_gives = { λ _ r. r ≡ Exhausted };

    fn from(_: AllocError) -> Stop {
        Stop::NoMemory
    }
}

impl<T: Drop> From<AllocFailed<T>> for Stop {
    ghost from_gives = { λ _ r. r ≡ Exhausted };

    fn from(_: AllocFailed<T>) -> Stop {
        Stop::NoMemory
    }
}

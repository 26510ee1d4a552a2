// What is printed of a unit.
use crate::stop::Stop;
use crate::timing::measure;
use crate::unit::Unit;
use std::fmt;
use std::io::{Eprint, Print};
use std::time::Clock;

// What is wanted: whether the units are timed, and which unit, if not all.
#[derive(Drop)]
pub struct Wish {
    pub is_timed: bool,
    pub only: Option<String>,
}

// Nanoseconds with one decimal.
#[derive(Clone, Copy)]
struct Nanos {
    tenths: u64,
}

impl Nanos {
    fn new(nanos: u64) -> Nanos {
        Nanos {
            tenths: nanos.saturating_mul(10),
        }
    }

    fn divided(self, parts: u32) -> Nanos {
        Nanos {
            tenths: self.tenths / u64::from(parts.max(1)),
        }
    }
}

impl fmt::Display for Nanos {
    fn fmt<W: fmt::Write>(&self, f: &mut fmt::Formatter<W>) -> fmt::Result {
        write!(f, "{}.{}", self.tenths / 10, self.tenths % 10)
    }
}

// `UNIT ANSWER`: what the work came to.
fn tell_answer<U: Unit, R: Print>(rt: &R, unit: &mut U) -> Result<(), Stop> {
    let answer = unit.work()?;
    println!(rt; "{} {answer}", U::NAME)?;
    Ok(())
}

// `UNIT TIME PER_CALL` in nanoseconds; the rest goes to standard error.
fn tell_time<U: Unit, R: Print + Eprint + Clock>(rt: &R, unit: &mut U) -> Result<(), Stop> {
    let timing = measure(unit, rt)?;
    let units = timing.units;
    let median = Nanos::new(timing.median).divided(units);
    let lower = Nanos::new(timing.lower).divided(units);
    let upper = Nanos::new(timing.upper).divided(units);
    println!(rt; "{} {median} {}", U::NAME, median.divided(U::CALLS))?;
    let sum = timing.sum;
    eprintln!(rt;
        "{}: laps of {units}; quartiles {lower} {upper}; sum {sum}",
        U::NAME
    )?;
    Ok(())
}

impl Wish {
    // Whether a unit is wanted.
    fn has(&self, name: &str) -> bool {
        self.only.as_ref().is_none_or(|only| only.as_str() == name)
    }

    // Prints a line on a unit, if it is wanted.
    pub(crate) fn tell<U: Unit, R: Print + Eprint + Clock>(
        &self,
        rt: &R,
        unit: &mut U,
    ) -> Result<(), Stop> {
        if !self.has(U::NAME) {
            return Ok(());
        }
        if self.is_timed {
            tell_time(rt, unit)
        } else {
            tell_answer(rt, unit)
        }
    }
}

// Timing a unit of work: the median of many laps.
use crate::middle::median;
use crate::stop::Stop;
use crate::unit::Unit;
use std::time::{Clock, Duration};

const LAPS: usize = 31;

// The shortest lap is to have so many nanoseconds.
const LEAST: u64 = 5_000_000;

// The work of a lap is doubled so often at most.
const DOUBLINGS: u32 = 31;

// The times of the laps in nanoseconds, and what their work came to in all.
#[derive(Clone, Copy)]
struct Laps {
    nanos: [u64; LAPS],
    sum: usize,
}

// The median and the quartiles of the laps' times, how many units a lap had, and what all the work came to.
#[derive(Clone, Copy)]
pub struct Timing {
    pub units: u32,
    pub lower: u64,
    pub median: u64,
    pub upper: u64,
    pub sum: usize,
}

fn nanos(time: Duration) -> u64 {
    u64::try_from(time.as_nanos()).unwrap_or(u64::MAX)
}

// Laps of `n` units each.
fn run_laps<U: Unit, C: Clock>(unit: &mut U, clock: &C, n: u32) -> Result<Laps, Stop> {
    let mut laps = Laps {
        nanos: [0; LAPS],
        sum: 0,
    };
    for place in laps.nanos.iter_mut() {
        let lap = unit.lap(clock, n)?;
        *place = nanos(lap.time);
        laps.sum = laps.sum.wrapping_add(lap.sum);
    }
    Ok(laps)
}

// The work of a lap is doubled until the shortest lap is long enough, so the laps that count are warm.
pub(crate) fn measure<U: Unit, C: Clock>(unit: &mut U, clock: &C) -> Result<Timing, Stop> {
    let mut sum = 0usize;
    for doublings in 0..DOUBLINGS {
        let units = 1 << doublings;
        let mut laps = run_laps(unit, clock, units)?;
        sum = sum.wrapping_add(laps.sum);
        let median = median(&mut laps.nanos);
        if laps.nanos[0] >= LEAST {
            return Ok(Timing {
                units,
                lower: laps.nanos[LAPS / 4],
                median,
                upper: laps.nanos[LAPS - 1 - LAPS / 4],
                sum,
            });
        }
    }
    Err(Stop::TooShort)
}

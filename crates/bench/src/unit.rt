// Units of work.
use crate::stop::Stop;
use std::time::{Clock, Duration, Instant};

// What a lap took, and what its work came to in all.
#[derive(Clone, Copy)]
pub struct Lap {
    pub time: Duration,
    pub sum: usize,
}

// A unit of work, which can be done again and again.
pub trait Unit {
    const NAME: &'static str;

    // How many calls one unit is.
    const CALLS: u32 = 1;

    // Does the work once; a number that says what it came to.
    fn work(&mut self) -> Result<usize, Stop>;

    // Does the work `n` times. What it came to is added up, so that no build can leave the work out.
    fn lap<C: Clock>(&mut self, clock: &C, n: u32) -> Result<Lap, Stop> {
        let mut sum = 0usize;
        let start = Instant::now(clock)?;
        for _ in 0..n {
            sum = sum.wrapping_add(self.work()?);
        }
        let time = start.elapsed(clock)?;
        Ok(Lap { time, sum })
    }
}

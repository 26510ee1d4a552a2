// The middle of some times.
ghost use Rattle.std.specs.Prelude.{◌<◌, length};
ghost use Rattle.std.specs.List.Sorted.{IsNonDecreasing};
ghost use Rattle.bench.specs.Middle.{IsMedian};

// The median, which leaves the times in order; of an even number of times the higher one in the middle.
pub(crate) fn median(times: &mut [u64]) -> u64
    requires { 0 < length times.old }
    ensures median { IsMedian times.old result }
    ensures order { IsNonDecreasing times.new }
{
    times.sort_unstable();
    times[times.len() / 2]
}

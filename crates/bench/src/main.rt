#![tactic(auto)]

// Units of work on name books and policy sets: does each once and prints what it came to, or, with the argument `time`,
// prints what each takes. A second argument names the only unit that is wanted.
mod books;
mod full_set;
mod link;
mod middle;
mod parties;
mod report;
mod rng;
mod stop;
mod timing;
mod turns;
mod unit;
mod units;

use report::Wish;
use std::env;
use stop::Stop;
use units::condition::Condition;
use units::get::Get;
use units::links::LinkUnlink;
use units::lookup::Lookup;
use units::merge_equal::MergeEqual;
use units::merge_rename::MergeRename;

// What the arguments ask for, behind the program's name.
fn wish(rt: &HostRuntime) -> Result<Wish, Stop> {
    let mut words = env::args(rt)?.skip(1);
    let is_timed = match words.next() {
        None => false,
        Some(word) if word.as_str() == "time" => true,
        Some(_) => return Err(Stop::Usage),
    };
    let only = words.next();
    Ok(Wish { is_timed, only })
}

fn main(rt: HostRuntime) -> Result<(), Stop> {
    let wish = wish(&rt)?;
    let heap = rt.alloc();
    wish.tell(&rt, &mut Lookup::new(heap)?)?;
    wish.tell(&rt, &mut LinkUnlink::new(heap)?)?;
    wish.tell(&rt, &mut Condition::new(heap)?)?;
    wish.tell(&rt, &mut MergeEqual::new(heap)?)?;
    wish.tell(&rt, &mut MergeRename::new(heap))?;
    wish.tell(&rt, &mut Get::new(heap)?)
}

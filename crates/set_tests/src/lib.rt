#![tactic(auto)]

// What callers of the set rely on, proved from its contracts alone; and tests of the calls on sets that the console
// cannot reach: records and numbers of other books.
#[cfg(test)]
mod other_books;
#[cfg(test)]
mod samples;
pub mod tenants;
#[cfg(test)]
mod two_tenants;

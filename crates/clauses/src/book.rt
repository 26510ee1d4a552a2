ghost use Rattle.std.specs.Prelude.{◌≡◌, ℕ, Bool, List, length};
ghost use Rattle.clauses.specs.Book.{Clause, DecidesEquality, Lawful, at, slots_of, constant_of, same_clause};

use refusals::slots::SlotSet;

// Clauses by number. A book means a list with a content, a slot set and a constant for each number below its count.
pub trait ClauseBook {
    // The type of contents.
    ghost content: { Type 0 };

    // The test on contents that `same` makes.
    ghost equal: { content → content → Bool };

    // The list that a book means.
    ghost listed: { Self → List (Clause content) };

    // How many clauses there are. A number has 16 bits, so nobody asks for those behind the first 65,536.
    fn count(&self) -> u32
        ensures { result ≡ length (listed self.now) };

    // The slots of a clause; none of a number that is not below the count.
    fn slots(&self, n: u16) -> SlotSet
        ensures { result.bits ≡ slots_of (at (listed self.now) n) };

    // The constant that a clause is, if any.
    fn constant(&self, n: u16) -> Option<bool>
        ensures { result ≡ constant_of (at (listed self.now) n) };

    // Whether both numbers are below the count and their contents are equal.
    fn same(&self, a: u16, b: u16) -> bool
        ensures { result ≡ same_clause equal (listed self.now) a b };

    // A law: the test says yes exactly of equal contents.
    ghost decides: { DecidesEquality equal };

    // The law of every book: equal contents have equal slots and constants, and a constant has no slot.
    ghost lawful: { (b : Self) → Lawful (listed b) };
}

ghost use Rattle.std.specs.Prelude.{◌≡◌, ℕ, ◌<◌, Bool, List, Some};
ghost use Rattle.std.specs.Cmp.Lexicographic.{pointwise};
ghost use Rattle.clauses.specs.Book.{Clause, DecidesEquality};

use refusals::slots::SlotSet;

// The items that the content of a clause is a list of: the clause that a content makes, and the laws of a clause book for each.
pub trait Content: Copy + PartialEq {
    // The clause that a content makes.
    ghost clause: { List Self → Clause (List Self) };

    // The test whether two contents are equal.
    ghost equal: { List Self → List Self → Bool };

    // The slots of a content.
    fn slots_of(content: &[Self]) -> SlotSet
        ensures { result.bits ≡ (clause content.now).slots };

    // The constant that a content is, if any.
    fn constant_of(content: &[Self]) -> Option<bool>
        ensures { result ≡ (clause content.now).constant };

    // `==` item by item is that test.
    ghost compared: { (s t : List Self) → pointwise Self.eq s t ≡ equal s t };

    // The test says yes exactly of equal contents.
    ghost decides: { DecidesEquality equal };

    // A clause has the content that it is made from.
    ghost keeps: { (t : List Self) → (clause t).content ≡ t };

    // The slots are two bits.
    ghost two_bits: { (t : List Self) → (clause t).slots < 4 };

    // A constant has no slot.
    ghost slotless: { (t : List Self) (v : Bool) → (clause t).constant ≡ Some v → (clause t).slots ≡ 0 };
}

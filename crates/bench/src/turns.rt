// Things that are asked for in turn.
ghost use Rattle.std.specs.Prelude.{◌≡◌, ◌<◌, ◌+◌, ◌%◌, slice_get};

// The things, and the place of the one whose turn it is.
#[derive(Drop)]
pub struct Turns<T: Drop, const N: usize> {
    things: [T; N],
    turn: usize,
    ghost in_turn: { turn < N },
}

impl<T: Copy + Drop, const N: usize> Turns<T, N> {
    // The first one begins.
    pub(crate) fn new(things: [T; N]) -> Turns<T, N>
        requires { 0 < N }
        ensures things { result.things ≡ things }
        ensures first { result.turn ≡ 0 }
    {
        Turns { things, turn: 0 }
    }

    // The thing whose turn it is. After it comes the one behind it, and after the last the first.
    pub(crate) fn next(&mut self) -> T
        ensures thing { slice_get self.old.things self.old.turn ≡ Some result }
        ensures turn { self.new.turn ≡ (self.old.turn + 1) % N }
        ensures things { self.new.things ≡ self.old.things }
    {
        let thing = self.things[self.turn];
        self.turn = (self.turn + 1) % N;
        thing
    }
}

ghost use Rattle.std.specs.Prelude.{◌≡◌, Decides};
ghost use Rattle.names.specs.TypeName.{IsAction};

// Whether two texts are equal.
pub fn same_text(a: &[u8], b: &[u8]) -> bool
    ensures { Decides result (a.now ≡ b.now) }
{
    a == b
}

// Whether the part of a type name after its last `::`, or the whole without one, is `Action`.
pub fn is_action_type(text: &[u8]) -> bool
    ensures { Decides result (IsAction text.now) }
{
    text == b"Action".as_slice() || text.ends_with(b"::Action")
}

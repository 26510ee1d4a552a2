ghost use Rattle.std.specs.Prelude.{◌≡◌, Some, Decides};
ghost use Rattle.names.specs.TypeName.{letter, word, TypeName};
ghost use Rattle.names.specs.Scan.{stepped, scanned, accepts};
ghost use Rattle.names.specs.declared.type_name.Scan.TheVariants.{Start as AtStart};

// Where a scan of a type name stands.
#[derive(Clone, Copy)]
pub enum Scan {
    // An identifier is to begin.
    Start,
    // Inside an identifier.
    Inside,
    // After the first colon of `::`.
    Colon,
}

// An ASCII letter or an underscore.
fn is_letter(byte: u8) -> bool
    ensures { result ≡ letter byte }
{
    matches!(byte, b'a'..=b'z' | b'A'..=b'Z' | b'_')
}

// An ASCII letter, a digit or an underscore.
pub fn is_word(byte: u8) -> bool
    ensures { result ≡ word byte }
{
    matches!(byte, b'a'..=b'z' | b'A'..=b'Z' | b'0'..=b'9' | b'_')
}

impl Scan {
    // Takes one byte; none where it breaks the rule.
    fn step(self, byte: u8) -> Option<Scan>
        ensures { result ≡ stepped self byte }
    {
        match self {
            Scan::Start if is_letter(byte) => Some(Scan::Inside),
            Scan::Inside if is_word(byte) => Some(Scan::Inside),
            Scan::Inside if byte == b':' => Some(Scan::Colon),
            Scan::Colon if byte == b':' => Some(Scan::Start),
            _ => None,
        }
    }

    // Whether an identifier stands last.
    fn is_inside(self) -> bool
        ensures { result ≡ accepts (Some self) }
    {
        matches!(self, Scan::Inside)
    }
}

// Where the scan of a text ends; none where the text breaks the rule.
fn scan_of(text: &[u8]) -> Option<Scan>
    ensures { result ≡ scanned AtStart text.now }
{
    let mut scan = Scan::Start;
    for byte in text {
        scan = scan.step(*byte)?;
    }
    Some(scan)
}

// Whether a text is identifiers joined by `::`.
pub fn is_type_name(text: &[u8]) -> bool
    ensures { Decides result (TypeName text.now) }
{
    scan_of(text).is_some_and(|scan| scan.is_inside())
}

// Where a scan of a sealed text stands: outside strings, in a string, or behind a backslash in a string.
#[derive(Clone, Copy)]
pub enum Scanner {
    Plain,
    String,
    Escaped,
}

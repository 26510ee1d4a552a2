use refusals::NameNumber;

// A new name that was tried: its number, the counter raised past its text, and how many texts are new to the book so far.
#[derive(Clone, Copy)]
pub(crate) struct Try {
    pub name: NameNumber,
    pub counter: u32,
    pub fresh: usize,
}

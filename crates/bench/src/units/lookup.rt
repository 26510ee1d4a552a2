use crate::rng::Rng;
use crate::stop::Stop;
use crate::unit::Unit;
use names::book::{PLACES, ROOM};
use names::kept::NameBook;
use std::alloc::Global;

// The number of each text of a full name book, in another order than they were entered in.
#[derive(Drop)]
pub struct Lookup {
    names: NameBook,
    asked: Vec<Vec<u8>>,
}

impl Lookup {
    pub(crate) fn new(heap: Global) -> Result<Lookup, Stop> {
        let mut rng = Rng::new(3);
        let mut names = NameBook::new(heap, PLACES, ROOM)?;
        let mut asked = Vec::with_capacity(heap, PLACES)?;
        for _ in 0..PLACES {
            let text = rng.text(heap, 8, 24)?;
            names.name(text.as_slice())?;
            asked.push(text)?;
        }
        rng.shuffle(asked.as_mut_slice());
        Ok(Lookup { names, asked })
    }
}

impl Unit for Lookup {
    const NAME: &'static str = "lookup1024";

    const CALLS: u32 = 1024;

    fn work(&mut self) -> Result<usize, Stop> {
        let mut sum = 0usize;
        for text in self.asked.iter() {
            let number = self.names.name(text.as_slice())?;
            sum = sum.wrapping_add(number as usize);
        }
        Ok(sum)
    }
}

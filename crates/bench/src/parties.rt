// Whom the templates and links of a set speak of.
use crate::books::Books;
use crate::rng::Rng;
use crate::stop::Stop;
use names::entity::EntityUID;

#[derive(Clone, Copy)]
pub struct Parties {
    users: [EntityUID; 32],
    files: [EntityUID; 32],
    actions: [EntityUID; 8],
}

impl Parties {
    pub(crate) fn new(books: &mut Books, rng: &mut Rng) -> Result<Parties, Stop> {
        let (user, file, action) = (books.user, books.file, books.action);
        Ok(Parties {
            users: books.entities(rng, user)?,
            files: books.entities(rng, file)?,
            actions: books.entities(rng, action)?,
        })
    }

    pub(crate) fn user(&self, i: usize) -> EntityUID {
        self.users[i % 32]
    }

    pub(crate) fn file(&self, i: usize) -> EntityUID {
        self.files[i % 32]
    }

    pub(crate) fn any_user(&self, rng: &mut Rng) -> EntityUID {
        self.users[rng.below(32)]
    }

    pub(crate) fn any_file(&self, rng: &mut Rng) -> EntityUID {
        self.files[rng.below(32)]
    }

    // An action and the next one.
    pub(crate) fn two_actions(&self, i: usize) -> [EntityUID; 2] {
        [self.actions[i % 8], self.actions[(i % 8 + 1) % 8]]
    }
}

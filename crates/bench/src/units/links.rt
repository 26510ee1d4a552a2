ghost use Rattle.std.specs.Prelude.{◌≡◌, ◌+◌, ◌%◌, length, IfOk, IsSomeAnd, slice_get};
ghost use Rattle.names.specs.Book.{texts};
ghost use Rattle.policy.specs.Arity.{parts};
ghost use Rattle.policy_set.specs.Maps.{changed};
ghost use Rattle.policy_set.specs.Meaning.{maps_of};
ghost use Rattle.bench.specs.Ended.{ended, kept};
ghost use Rattle.bench.specs.Linking.{linked, unlinked, without_link};

use crate::books::{Books, CLAUSE};
use crate::full_set::{Size, full_set};
use crate::link::Link;
use crate::rng::Rng;
use crate::stop::Stop;
use crate::turns::Turns;
use crate::unit::Unit;
use policy::bound::Policy;
use policy::values::SlotEnv;
use policy_set::set::PolicySet;
use std::alloc::Global;

// One policy less than a full set has.
const ROOM_FOR_ONE: Size = Size {
    templates: 64,
    slotted: 32,
    links: 223,
};

const _: () = prove!(ROOM_FOR_ONE.templates - ROOM_FOR_ONE.slotted + ROOM_FOR_ONE.links == 255);

// The last place of a full set is linked, and unlinked again.
#[derive(Drop)]
pub struct LinkUnlink {
    books: Books,
    set: PolicySet,
    links: Turns<Link, 16>,
    linked: Option<Policy>,
    unlinked: Option<Policy>,
}

// A link of each template with one slot, which every other one is.
fn links(books: &mut Books, set: &PolicySet) -> Result<[Link; 16], Stop> {
    let mut rng = Rng::new(5);
    let mut links = [Link::default(); 16];
    let user = books.user;
    for (k, link) in links.iter_mut().enumerate() {
        let template = set.templates(2 * k).ok_or(Stop::Absent)?;
        let id = books.id(&mut rng)?;
        let principal = Some(books.entity(&mut rng, user)?);
        let values = SlotEnv {
            principal,
            resource: None,
        };
        *link = Link {
            template,
            id,
            values,
        };
    }
    Ok(links)
}

impl LinkUnlink {
    pub(crate) fn new(heap: Global) -> Result<LinkUnlink, Stop> {
        let mut books = Books::new(heap)?;
        let clause = books.clauses.enter(CLAUSE)?;
        let set = full_set(&mut books, ROOM_FOR_ONE, clause)?;
        let links = Turns::new(links(&mut books, &set)?);
        Ok(LinkUnlink {
            books,
            set,
            links,
            linked: None,
            unlinked: None,
        })
    }
}

impl Unit for LinkUnlink {
    const NAME: &'static str = "link_unlink_full";

    // Makes the link whose turn it is and removes it again; the link's id. Both policies are kept, so that no build can
    // leave out handing them over.
    fn work(&mut self) -> Result<usize, Stop>
        ensures answer { IsSomeAnd (slice_get self.old.links.things self.old.links.turn) (λ link. result ≡ ended link.id (unlinked (length (texts self.old.books.names)) (maps_of self.old.set) link)) }
        ensures linked { IsSomeAnd (slice_get self.old.links.things self.old.links.turn) (λ link. changed parts self.new.linked ≡ kept (changed parts self.old.linked) (linked (length (texts self.old.books.names)) (maps_of self.old.set) link)) }
        ensures unlinked { IsSomeAnd (slice_get self.old.links.things self.old.links.turn) (λ link. changed parts self.new.unlinked ≡ kept (changed parts self.old.unlinked) (unlinked (length (texts self.old.books.names)) (maps_of self.old.set) link)) }
        ensures after { IsSomeAnd (slice_get self.old.links.things self.old.links.turn) (λ link. maps_of self.new.set ≡ without_link (length (texts self.old.books.names)) (maps_of self.old.set) link) }
        ensures back { IfOk result (λ _. maps_of self.new.set ≡ maps_of self.old.set) }
        ensures same { IfOk result (λ _. changed parts self.new.unlinked ≡ changed parts self.new.linked) }
        ensures books { self.new.books ≡ self.old.books }
        ensures turn { self.new.links.turn ≡ (self.old.links.turn + 1) % 16 }
        ensures things { self.new.links.things ≡ self.old.links.things }
    {
        let link = self.links.next();
        let names = &self.books.names;
        self.linked = Some(self.set.link(link.template, link.id, link.values, names)?);
        self.unlinked = Some(self.set.unlink(link.id, names)?);
        Ok(link.id as usize)
    }
}

// What calls answer.
use crate::pairs::Pairs;
use policy::bound::Policy;
use policy::template::Template;
use refusals::NameNumber;
use refusals::refusal::Refusal;

// What an accepted call hands back.
#[derive(Clone, Copy)]
pub enum Handed {
    Nothing,
    // the number of a text
    Name(NameNumber),
    // the policy that a link made or a removal took
    Policy(Policy),
    // the template that a removal took
    Template(Template),
    // the pairs of a merge
    Pairs(Pairs),
}

// The answer to a call.
pub type Answer = Result<Handed, Refusal>;

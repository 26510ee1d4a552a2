// What stands under a server's id from one tenant to the next, proved of callers that know the contracts of the set alone.
ghost use Rattle.std.specs.Prelude.{◌≡◌, length};
ghost use Rattle.names.specs.Book.{texts};
ghost use Rattle.policy_set.specs.Answers.{unlink_after};
ghost use Rattle.policy_set.specs.Handed.{parts_found};
ghost use Rattle.policy_set.specs.Meaning.{maps_of};
ghost use Rattle.set_tests.specs.Tenants.{leave_answer, pass_on_answer, pass_on_after, Leaving, PassingOn};

use names::kept::NameBook;
use policy::bound::Policy;
use policy::values::SlotEnv;
use policy_set::set::PolicySet;
use refusals::NameNumber;
use refusals::refusal::Refusal;

// The tenant's link is removed; what stands under its id then, which is nothing.
pub fn leave(
    set: &mut PolicySet,
    id: NameNumber,
    names: &NameBook,
) -> Result<Option<Policy>, Refusal>
    ensures answer { parts_found result ≡ leave_answer (length (texts names.now)) (maps_of set.old) id }
    ensures after { maps_of set.new ≡ unlink_after (length (texts names.now)) (maps_of set.old) id }
    ensures law { Leaving (maps_of set.old) (maps_of set.new) id (parts_found result) }
{
    set.unlink(id, names)?;
    set.get(id, names)
}

// The tenant's link is removed, and a template is linked under its id for the next one; what stands under the id then.
pub fn pass_on(
    set: &mut PolicySet,
    id: NameNumber,
    template_id: NameNumber,
    values: SlotEnv,
    names: &NameBook,
) -> Result<Option<Policy>, Refusal>
    ensures answer { parts_found result ≡ pass_on_answer (length (texts names.now)) (maps_of set.old) id template_id values }
    ensures after { maps_of set.new ≡ pass_on_after (length (texts names.now)) (maps_of set.old) id template_id values }
    ensures law { PassingOn (maps_of set.old) (maps_of set.new) id template_id values (parts_found result) }
{
    leave(set, id, names)?;
    set.link(template_id, id, values, names)?;
    set.get(id, names)
}

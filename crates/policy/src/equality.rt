ghost use Rattle.std.specs.Prelude.{◌≡◌, length, IfOk, Decides};
ghost use Rattle.policy.specs.Equality.{option_equal, scopes_equal, template_equal, policy_equal};
ghost use Rattle.clauses.specs.Book.{same_clause};
ghost use Rattle.names.specs.Book.{texts};
ghost use Rattle.policy.specs.Equal.{EqualTemplates, EqualPolicies};
ghost use Rattle.policy.specs.Calls.{equals_template, equals_policy};

use crate::bound::Policy;
use crate::known::{known_clause, known_names, known_policy_names};
use crate::template::Template;
use clauses::book::ClauseBook;
use names::kept::NameBook;
use refusals::refusal::Refusal;

// Whether both clauses are absent, or `same` says yes of them.
fn clauses_equal<B: ClauseBook>(a: Option<u16>, b: Option<u16>, clauses: &B) -> bool
    ensures { result ≡ option_equal (same_clause B.ClauseBook.equal (B.ClauseBook.listed clauses.now)) a b }
{
    match (a, b) {
        (None, None) => true,
        (Some(a), Some(b)) => clauses.same(a, b),
        _ => false,
    }
}

// Whether the three scopes of two templates are equal.
#[tactic(auto, using(crate::proofs::Derived::actions_alike, crate::proofs::Derived::scopes_alike))]
fn scopes_equal(a: &Template, b: &Template) -> bool
    ensures { result ≡ scopes_equal a.now b.now }
{
    a.principal == b.principal && a.action == b.action && a.resource == b.resource
}

// Whether every field is equal, the clauses by their contents.
// No derived `==`: the contents of a clause are in the book alone.
pub fn templates_equal<B: ClauseBook>(a: &Template, b: &Template, clauses: &B) -> bool
    ensures { result ≡ template_equal (same_clause B.ClauseBook.equal (B.ClauseBook.listed clauses.now)) a.now b.now }
{
    a.id == b.id
        && a.effect == b.effect
        && scopes_equal(a, b)
        && clauses_equal(a.clause, b.clause, clauses)
        && a.slots == b.slots
}

// Whether templates, link ids and values are equal.
pub fn policies_equal<B: ClauseBook>(a: &Policy, b: &Policy, clauses: &B) -> bool
    ensures { result ≡ policy_equal (same_clause B.ClauseBook.equal (B.ClauseBook.listed clauses.now)) a.now b.now }
{
    templates_equal(&a.template, &b.template, clauses) && a.link == b.link && a.values == b.values
}

impl Template {
    // Whether two templates are equal.
    pub fn equals<B: ClauseBook>(
        &self,
        other: &Template,
        names: &NameBook,
        clauses: &B,
    ) -> Result<bool, Refusal>
        ensures answer { result ≡ equals_template B.ClauseBook.equal (length (texts names.now)) (B.ClauseBook.listed clauses.now) self.now other.now }
        ensures words { IfOk result (λ yes. Decides yes (EqualTemplates (B.ClauseBook.listed clauses.now) self.now other.now)) }
    {
        known_names(names.count(), self)?;
        known_names(names.count(), other)?;
        known_clause(clauses, self.clause)?;
        known_clause(clauses, other.clause)?;
        Ok(templates_equal(self, other, clauses))
    }
}

impl Policy {
    // Whether two policies are equal.
    pub fn equals<B: ClauseBook>(
        &self,
        other: &Policy,
        names: &NameBook,
        clauses: &B,
    ) -> Result<bool, Refusal>
        ensures answer { result ≡ equals_policy B.ClauseBook.equal (length (texts names.now)) (B.ClauseBook.listed clauses.now) self.now other.now }
        ensures words { IfOk result (λ yes. Decides yes (EqualPolicies (B.ClauseBook.listed clauses.now) self.now other.now)) }
    {
        known_policy_names(names.count(), self)?;
        known_policy_names(names.count(), other)?;
        known_clause(clauses, self.template.clause)?;
        known_clause(clauses, other.template.clause)?;
        Ok(policies_equal(self, other, clauses))
    }
}

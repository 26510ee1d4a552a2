ghost use Rattle.std.specs.Prelude.{◌≡◌};
ghost use Rattle.policy.specs.Scopes.{type_of, reference_of};

use crate::constraint::{EntityReference, PrincipalOrResourceConstraint};
use refusals::NameNumber;

impl PrincipalOrResourceConstraint {
    // The type name of `is`.
    pub(crate) fn ty(self) -> Option<NameNumber>
        ensures { result ≡ type_of self }
    {
        match self {
            PrincipalOrResourceConstraint::Is(t) | PrincipalOrResourceConstraint::IsIn(t, _) =>
                Some(t),
            _ => None,
        }
    }

    // What the scope refers to.
    pub(crate) fn reference(self) -> Option<EntityReference>
        ensures { result ≡ reference_of self }
    {
        match self {
            PrincipalOrResourceConstraint::In(r)
            | PrincipalOrResourceConstraint::Eq(r)
            | PrincipalOrResourceConstraint::IsIn(_, r) => Some(r),
            PrincipalOrResourceConstraint::Any | PrincipalOrResourceConstraint::Is(_) => None,
        }
    }
}

// The edge cases.
ghost use Rattle.policy_set.specs.Edges.{Edges};

// The eight edge cases stand.
pub fn edge_cases()
    ensures { Edges }
{}

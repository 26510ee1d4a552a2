ghost use Rattle.policy.specs.Edges.{Edges};

// The edge cases of conditions, of binding and of sealed texts stand.
pub fn edge_cases()
    ensures { Edges }
{}

// Examples at the edges of the rules, as one table that the checker computes.
#![tactic(auto)]

ghost use Rattle.edges.specs.Edges.{Edges};

// Every line of the table holds.
pub fn edges()
    ensures { Edges }
{}

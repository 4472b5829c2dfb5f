// Elimination and sweep over the amounts of every lawful kind: theory that closing rests on.
#![tactic(auto)]

ghost use Rattle.kinds.specs.Arithmetic.{Arithmetic, Lawful};
ghost use Rattle.elimination.specs.Held.{Keeps};

// The amounts of every lawful kind keep the laws that the theory asks for.
pub fn amounts_keep_the_laws()
    ensures { (A : Arithmetic) (L : Lawful A) → Keeps L }
{}

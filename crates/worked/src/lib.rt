// Worked examples: what the definitions give for small programs, from the bytes of a table on.
#![tactic(auto)]

ghost use Rattle.worked.specs.Examples.{Examples};
ghost use Rattle.worked.specs.Refused.{RefusedExamples};

// Small programs, each from its bytes through tree, code, meaning and machine to its end.
pub fn worked_examples_hold() -> bool
    ensures { Examples }
{
    true
}

// A small example of each refusal of a table, a sheet and a ramp.
pub fn refused_examples_hold() -> bool
    ensures { RefusedExamples }
{
    true
}

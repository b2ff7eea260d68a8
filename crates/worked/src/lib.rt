// The worked examples, computed by the rules themselves: sheets, one flight, the limits of a sheet, and a run that meets a limit.
#![tactic(auto)]

ghost use Rattle.std.specs.Prelude.{◌≡◌};
ghost use Rattle.worked.specs.Examples.{computed, expected};
ghost use Rattle.worked.specs.Limit.{LimitMet};

// Each example comes out as it should.
pub fn worked_examples()
    ensures { computed ≡ expected }
{}

// The limit on what is sent for two flows that wait throughout cannot be lowered: a run meets it.
pub fn limit_is_met()
    ensures { LimitMet }
{}

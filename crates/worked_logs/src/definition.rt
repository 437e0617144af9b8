//! What the definition of the step tells of the scripts.
ghost use Rattle.std.specs.Prelude.{◌≡◌};
ghost use Rattle.worked_logs.specs.World.{start, told, wanted};

use crate::losses::LOSSES;
use crate::rules::RULES;

/// Three nodes, of which each rule is asked.
pub fn rules_told()
    ensures { told start RULES ≡ wanted RULES }
{}

/// Three nodes, while messages are lost, repeated and late.
pub fn losses_told()
    ensures { told start LOSSES ≡ wanted LOSSES }
{}

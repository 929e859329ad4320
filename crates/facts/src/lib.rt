//! The worked examples of the kit: each makes its calls, and its contract says what they come to.
#![tactic(auto)]

ghost use Rattle.facts.specs.Examples.{Shown};

mod maps;
mod outcomes;
mod plans;
mod rigs;

pub use outcomes::{Both, Checks, Draws, Examples, Late, Links, Lone, Openings, Plan};

/// Makes the calls of all the worked examples. The contract says exactly what comes of each.
pub fn worked_examples() -> Examples
    ensures { Shown result }
{
    Examples {
        lone: rigs::lone_node(),
        draws: rigs::three_contend(),
        plan: plans::planned_path(),
        checks: plans::checked_path(),
        late: rigs::late_grant(),
        both: rigs::both_request(),
        links: plans::linked_path(),
        step: plans::generator_step(),
        openings: maps::opened(),
    }
}

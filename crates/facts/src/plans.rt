//! Examples of planner, checker and clash rules, and of the generator.
ghost use Rattle.std.specs.Prelude.{◌≡◌};
ghost use Rattle.facts.specs.Examples.{ChecksOfThree, LinksOfFive, PlanOfFour};

use crate::outcomes::{Checks, Links, Plan};
use benches::path;
use radio::step;
use refusal::Refusal;
use rules::{LinkRule, NodeRule};
use schedule::{ClashRule, check, plan};

// The plan of the path 0–1–2–3.
pub(crate) fn planned_path() -> Plan
    ensures { PlanOfFour result }
{
    let map = path(4);
    let mut slots = [0u16; 4];
    let answer = plan(&NodeRule::new(&map), &[0, 3, 1, 2], &mut slots);
    Plan { answer, slots }
}

// The checker on the path 0–1–2.
pub(crate) fn checked_path() -> Checks
    ensures { ChecksOfThree result }
{
    let map = path(3);
    let rule = NodeRule::new(&map);
    Checks {
        shared: check(&rule, &[1, 2, 1]),
        apart: check(&rule, &[1, 2, 0]),
    }
}

// Links of the path 0–1–2–3–4.
pub(crate) fn linked_path() -> Result<Links, Refusal>
    ensures { LinksOfFive result }
{
    let map = path(5);
    let rule = LinkRule::new(&map, &[(0, 1), (2, 3), (3, 4)])?;
    Ok(Links {
        near: rule.clashes(0, 1),
        far: rule.clashes(0, 2),
    })
}

// The generator's step from 1.
#[tactic(auto, unfolding(radio::specs::Coin::stepped))]
pub(crate) fn generator_step() -> u32
    ensures { result ≡ 270369 }
{
    step(1)
}

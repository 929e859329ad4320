//! Compares the kit with worked examples and with a second planner of its own, written by another
//! method, on maps and orders drawn from a generator. Prints a line for each group with how many
//! cases agreed, and ends with an error if any differed.
#![tactic(auto)]

use anyhow::ensure;
use score::Score;
use std::io;

mod bench;
mod dice;
mod drives;
mod examples;
mod grid;
mod jobs;
mod planners;
mod score;
mod settled;

// Prints a group's line, and gives its score back.
fn show(rt: &impl Print, name: &str, score: Score) -> io::Result<Score> {
    println!(rt; "{name}: {score}")?;
    Ok(score)
}

fn main(rt: HostRuntime) -> anyhow::Result<()> {
    let mut all = Score::default();
    all += show(&rt, "nodes of a map", examples::openings())?;
    all += show(&rt, "rounds of a draw", examples::rounds())?;
    all += show(&rt, "the listed job", jobs::listed())?;
    all += show(&rt, "planner, node rule", planners::nodes(5000))?;
    all += show(&rt, "planner, link rule", planners::links(3000))?;
    all += show(&rt, "drive and planner", drives::drives(500))?;
    all += show(&rt, "runs over the coin radio", settled::runs(500))?;
    ensure!(all.all_agreed(), "some cases differed");
    Ok(())
}

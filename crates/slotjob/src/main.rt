//! Reads a job from standard input, runs it, and prints its listing, or why it is refused.
#![tactic(auto)]

use console::read_job;
use job::print;
use std::io;
use std::io::Write;

fn main(rt: HostRuntime) -> io::Result<()> {
    let job = read_job(rt.alloc(), rt.stdin())?;
    rt.stdout().write_all(print(job.as_slice()).as_bytes())
}

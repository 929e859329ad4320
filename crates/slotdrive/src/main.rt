//! Reads a job of N and L records from standard input, and prints the report on its drive.
#![tactic(auto)]

use console::read_job;
use driven::report;
use std::io;
use std::io::Write;

fn main(rt: HostRuntime) -> io::Result<()> {
    let job = read_job(rt.alloc(), rt.stdin())?;
    rt.stdout().write_all(report(job.as_slice()).as_bytes())
}

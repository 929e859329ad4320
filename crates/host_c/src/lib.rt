//! The checker of slot tables as a library for C: what `host/slot_check.h` declares. It has the function
//! of `host` once more, since a crate is a library for Rattle or one for C.
#![tactic(auto)]

ghost use Rattle.host.specs.Answer.{Answered};

/// Checks the slots of a bench. `job` holds N and L records, and `slots` a byte for each node, 0
/// for no slot; bytes past the nodes are not read.
///
/// Answers 0 if no two contenders share a slot, 256 × a + b for the first pair a, b that does, or
/// 65,536 plus a refusal's number: 2 or 13 by the job's length, 14 for a bad record, then 1 for
/// fewer slots than nodes.
#[unsafe(no_mangle)]
pub extern "C" fn slot_check(job: &[u8], slots: &[u8]) -> u32
    ensures { Answered job.now slots.now result }
{
    host::slot_check(job, slots)
}

//! Why a call of the kit says no: one enum, with a number and a word for each case.
#![tactic(auto)]

ghost use Rattle.std.specs.Prelude.{◌≡◌, Some};
ghost use Rattle.refusal.specs.Entry.{entry};

use std::error::Error;
use std::fmt;

/// A refusal. The comment at each case says when it comes.
#[derive(Clone, Copy, Debug, PartialEq, Eq)]
pub enum Refusal {
    /// A table or a buffer is shorter than needed.
    Short,
    /// Nodes not 1 to 64, more than 512 pairs, or a job of more than 32,768 bytes.
    Count,
    /// A node or an item is not below its count.
    Node,
    /// The two ends of a link are the same node.
    SelfLink,
    /// An order names an item again.
    Twice,
    /// The order of a drive leaves out a node.
    Missing,
    /// A listed pair is no link.
    Unlinked,
    /// A draw of a node that has decided.
    Settled,
    /// A draw in phase request or grant.
    Busy,
    /// A draw at round 65,535.
    Spent,
    /// A nudge in phase idle or release.
    Quiet,
    /// A message of an unknown kind, between nodes that are no neighbours, or a release of no slot.
    Foreign,
    /// The length of a job is no multiple of 8.
    Torn,
    /// The record of this index, from 0, breaks the rules of a job; of an empty job, 0.
    Record(usize),
}

impl Refusal {
    /// The word by which the rules list the refusal.
    pub fn word(self) -> &'static str
        ensures { result.now ≡ (entry self).word }
    {
        match self {
            Refusal::Short => "short",
            Refusal::Count => "count",
            Refusal::Node => "node",
            Refusal::SelfLink => "self",
            Refusal::Twice => "twice",
            Refusal::Missing => "missing",
            Refusal::Unlinked => "unlinked",
            Refusal::Settled => "settled",
            Refusal::Busy => "busy",
            Refusal::Spent => "spent",
            Refusal::Quiet => "quiet",
            Refusal::Foreign => "foreign",
            Refusal::Torn => "torn",
            Refusal::Record(_) => "record",
        }
    }

    /// The index of the bad record, for a refusal that has one.
    pub fn index(self) -> Option<usize>
        ensures { result ≡ (entry self).index }
    {
        match self {
            Refusal::Record(index) => Some(index),
            _ => None,
        }
    }
}

/// The number by which the rules list the refusal.
impl From<Refusal> for u8 {
    ghost from_gives = { λ refusal number. number ≡ (entry refusal).number };

    fn from(refusal: Refusal) -> u8 {
        match refusal {
            Refusal::Short => 1,
            Refusal::Count => 2,
            Refusal::Node => 3,
            Refusal::SelfLink => 4,
            Refusal::Twice => 5,
            Refusal::Missing => 6,
            Refusal::Unlinked => 7,
            Refusal::Settled => 8,
            Refusal::Busy => 9,
            Refusal::Spent => 10,
            Refusal::Quiet => 11,
            Refusal::Foreign => 12,
            Refusal::Torn => 13,
            Refusal::Record(_) => 14,
        }
    }
}

/// Prints the word of the refusal.
impl fmt::Display for Refusal {
    ghost output = { λ refusal. Some (entry refusal).word };

    fn fmt<W: fmt::Write>(&self, f: &mut fmt::Formatter<W>) -> fmt::Result {
        f.write_str(self.word())
    }
}

impl Error for Refusal {}

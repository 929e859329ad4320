//! A record taken apart.
ghost use Rattle.std.specs.Prelude.{◌≡◌};
ghost use Rattle.records.specs.Fields.{taken};

/// The parts of a record of eight bytes.
#[derive(Clone, Copy, Debug, PartialEq, Eq)]
pub struct Record {
    /// Byte 0, an ASCII letter.
    pub letter: u8,
    /// Byte 1, a node or a count of nodes.
    pub first: u8,
    /// Byte 2, a node.
    pub second: u8,
    /// Bytes 4 to 7, the high byte first.
    pub number: u32,
}

impl Record {
    /// Takes a record apart: `None` unless there are eight bytes and byte 3, which no letter uses,
    /// is 0.
    pub fn take_apart(bytes: &[u8]) -> Option<Record>
        ensures { result ≡ taken bytes.now }
    {
        let [letter, first, second, 0, rest @ ..] = bytes else {
            return None;
        };
        let [n3, n2, n1, n0] = rest else {
            return None;
        };
        Some(Record {
            letter: *letter,
            first: *first,
            second: *second,
            number: u32::from_be_bytes([*n3, *n2, *n1, *n0]),
        })
    }
}

//! The kinds of messages, and the bytes that stand for them.
ghost use Rattle.std.specs.Prelude.{◌≡◌};
ghost use Rattle.radio.specs.Kinds.{kind_number, Decodes};

/// What a message says.
#[derive(Clone, Copy, Debug, PartialEq, Eq)]
pub enum Kind {
    /// The sender asks for a grant.
    Request,
    /// The sender grants, and names the slots that it knows are taken.
    Grant,
    /// The sender does not grant.
    Reject,
    /// The sender has decided for a slot.
    Release,
    /// The sender has given its round up.
    Fail,
}

/// A byte that stands for no kind.
#[derive(Clone, Copy, Debug, PartialEq, Eq)]
pub struct UnknownKind(pub u8);

impl From<Kind> for u8 {
    ghost from_gives = { λ kind byte. byte ≡ kind_number kind };

    fn from(kind: Kind) -> u8 {
        match kind {
            Kind::Request => 1,
            Kind::Grant => 2,
            Kind::Reject => 3,
            Kind::Release => 4,
            Kind::Fail => 5,
        }
    }
}

impl TryFrom<u8> for Kind {
    type Error = UnknownKind;

    ghost try_from_gives = { Decodes };

    fn try_from(byte: u8) -> Result<Kind, UnknownKind> {
        match byte {
            1 => Ok(Kind::Request),
            2 => Ok(Kind::Grant),
            3 => Ok(Kind::Reject),
            4 => Ok(Kind::Release),
            5 => Ok(Kind::Fail),
            _ => Err(UnknownKind(byte)),
        }
    }
}

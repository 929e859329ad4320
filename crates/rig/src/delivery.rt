//! Messages that a rig acts on.
ghost use Rattle.std.specs.Prelude.{◌≡◌, ◌<◌};
ghost use Rattle.radio.specs.declared.kind.Kind.TheVariants.{Release};

use radio::{Kind, Message};

/// A message that is not foreign, with its kind.
#[derive(Clone, Copy)]
pub(crate) struct Delivery {
    pub(crate) kind: Kind,
    pub(crate) message: Message,
    ghost inside: { message.receiver < 64 },
    ghost slotted: { kind ≡ Release → 0 < message.slot },
}

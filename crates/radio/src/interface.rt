//! The radio as the nodes see it.
ghost use Rattle.std.specs.Prelude.{◌≡◌, ◌⊎◌, Some, Option};
ghost use Rattle.radio.specs.Ways.{In, OldOrPut, Ways, puts};
ghost use Rattle.radio.specs.declared.message.Message.{Message};

use crate::Message;

/// A radio. Its meaning is its state; the messages that wait in a state are its air. Neither call
/// is ever refused.
pub trait Radio {
    ghost State: { Type 0 };

    ghost state: { Self → State };

    // The radio's own rule, over its states.
    ghost ways: { Ways State };

    /// Puts a message in.
    fn put(&mut self, message: Message)
        ensures { state self.new ≡ ways.after_put (state self.old) message };

    /// Takes a message, or `None` if nothing came.
    fn take(&mut self) -> Option<Message>
        ensures after { state self.new ≡ ways.after_take (state self.old) }
        ensures value { result ≡ ways.taken (state self.old) };

    // The air rule: after putting in, each message in the air was there before or is the one put in.
    ghost put_air: { (s : State) (m x : Message) → In x (ways.air (ways.after_put s m)) → In x (ways.air s) ⊎ (x ≡ m) };

    // Each message in the air after a taking was in it before.
    ghost take_air: { (s : State) (x : Message) → In x (ways.air (ways.after_take s)) → In x (ways.air s) };

    // A message answered was in the air.
    ghost taken_air: { (s : State) (x : Message) → ways.taken s ≡ Some x → In x (ways.air s) };
}

/// Puts a list of messages in, in its order. Each message in the air is then one that was there
/// before or one of the list.
pub fn put_all<R: Radio>(radio: &mut R, messages: &[Message])
    ensures after { R.state radio.new ≡ puts R.ways (R.state radio.old) messages.now }
    ensures air { OldOrPut R.ways (R.state radio.old) messages.now }
{
    for message in messages {
        radio.put(*message);
    }
}

//! Deliver: what a node does with a message.
ghost use Rattle.std.specs.Prelude.{◌≡◌};
ghost use Rattle.rig.specs.Calm.{at};
ghost use Rattle.rig.specs.Laws.{LawfulDelivery};
ghost use Rattle.rig.specs.Made.{Does};
ghost use Rattle.rig.specs.Steps.{Accepts, delivered, on_grant, on_request, received};

use crate::delivery::Delivery;
use crate::{Node, Phase, Rig};
use radio::{Kind, Message, Radio};
use refusal::Refusal;

impl Rig {
    fn on_request<R: Radio>(&mut self, delivery: Delivery, radio: &mut R)
        ensures { let x = delivery.message in Does R.ways self.old self.new (R.state radio.old) (R.state radio.new) (λ m b. on_request m b x (at b x.receiver).phase) }
    {
        let x = delivery.message;
        let node = self.nodes[x.receiver as usize];
        let grant = node.grant(x.round, x.receiver, x.sender);
        match node.phase {
            Phase::Idle | Phase::Release => {
                self.nodes[x.receiver as usize] = Node {
                    phase: Phase::Grant,
                    holder: x.sender,
                    term: x.round,
                    ..node
                };
                radio.put(grant);
            }
            Phase::Grant if node.serves(x) => radio.put(grant),
            Phase::Grant | Phase::Request => radio.put(x.reply(Kind::Reject)),
        }
    }

    fn on_grant<R: Radio>(&mut self, delivery: Delivery, radio: &mut R)
        ensures { Does R.ways self.old self.new (R.state radio.old) (R.state radio.new) (λ m b. on_grant m b delivery.message) }
    {
        let x = delivery.message;
        let node = self.nodes[x.receiver as usize];
        if node.waits_in(x.round) {
            let counted = node.counted(x);
            self.nodes[x.receiver as usize] = counted;
            if self.map.neighbours(x.receiver).is_subset(counted.granted) {
                self.settle(x.receiver, radio);
            }
        } else if node.slot != 0 && node.dated == x.round {
            radio.put(Message {
                slot: node.slot,
                ..x.reply(Kind::Release)
            });
        } else {
            radio.put(x.reply(Kind::Fail));
        }
    }

    // The message with its kind; refuses a foreign one by `Foreign`.
    fn accept(&self, message: Message) -> Result<Delivery, Refusal>
        ensures { Accepts self.now.map message result }
    {
        let kind = Kind::try_from(message.kind).map_err(|_| Refusal::Foreign)?;
        let no_slot = kind == Kind::Release && (message.slot == 0 || message.slot > 64);
        if no_slot || !self.map.linked(message.sender, message.receiver) {
            return Err(Refusal::Foreign);
        }
        Ok(Delivery { kind, message })
    }

    fn receive<R: Radio>(&mut self, x: Message, radio: &mut R) -> Result<Option<Kind>, Refusal>
        ensures made { Does R.ways self.old self.new (R.state radio.old) (R.state radio.new) (λ m b. received m b x) }
        ensures value { result ≡ (received self.old.map self.old.nodes x).answer }
    {
        let delivery = self.accept(x)?;
        let node = self.nodes[x.receiver as usize];
        // A match and no closure: which kind comes is data.
        match delivery.kind {
            Kind::Request => self.on_request(delivery, radio),
            Kind::Grant => self.on_grant(delivery, radio),
            Kind::Reject => {
                if node.waits_in(x.round) {
                    self.give_up(x.receiver, radio);
                }
            }
            Kind::Release => {
                self.nodes[x.receiver as usize] = node.hearing(x.slot).freed_by(x);
            }
            Kind::Fail => self.nodes[x.receiver as usize] = node.freed_by(x),
        }
        Ok(Some(delivery.kind))
    }

    /// Takes one message from the radio and lets its receiver act on it. Answers the message's kind,
    /// or `None` if nothing came.
    ///
    /// Refuses `Foreign` if the kind is unknown, the ends are no neighbours, or it is a release of
    /// a slot not 1 to 64; the message has been taken then, and the rig stays.
    pub fn deliver<R: Radio>(&mut self, radio: &mut R) -> Result<Option<Kind>, Refusal>
        ensures made { let s = R.state radio.old in Does R.ways self.old self.new (R.ways.after_take s) (R.state radio.new) (λ m b. delivered m b (R.ways.taken s)) }
        ensures value { result ≡ (delivered self.old.map self.old.nodes (R.ways.taken (R.state radio.old))).answer }
        ensures lawful { let s = R.state radio.old in LawfulDelivery self.old.nodes self.new.nodes (R.ways.after_take s) (R.state radio.new) (R.ways.taken s) result }
    {
        match radio.take() {
            Some(x) => self.receive(x, radio),
            None => Ok(None),
        }
    }
}

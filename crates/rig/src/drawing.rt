//! Draw and nudge.
ghost use Rattle.std.specs.Prelude.{◌≡◌};
ghost use Rattle.rig.specs.Laws.{Lawful};
ghost use Rattle.rig.specs.Made.{Does};
ghost use Rattle.radio.specs.Ways.{puts};
ghost use Rattle.rig.specs.Steps.{drawn, lottery_number, nudged, wins};

use crate::sending::{send_to_all, send_to_rest};
use crate::{Lottery, Node, Phase, Rig};
use marks::Marks;
use radio::{Kind, Message, Radio};
use refusal::Refusal;

/// The number by which the rules list what came of a draw.
impl From<Lottery> for u8 {
    ghost from_gives = { λ lottery number. number ≡ lottery_number lottery };

    fn from(lottery: Lottery) -> u8 {
        match lottery {
            Lottery::Lost => 0,
            Lottery::Asked => 1,
            Lottery::Decided => 2,
        }
    }
}

impl Rig {
    // Whether node `k` wins with the number `v`.
    fn wins(&self, k: u8, v: u32) -> bool
        ensures { result ≡ wins self.now.map k v }
    {
        let contenders = u32::from(self.map.contenders(k).len());
        v % 2 == 1 && v / 2 % (contenders + 1) == 0
    }

    /// A lottery of node `k` with the number `v`: it wins exactly when `v` is odd and half of it,
    /// rounded down, is 0 modulo one more than its contenders. A winner begins a new round and asks
    /// all its neighbours; one without neighbours decides.
    ///
    /// Refuses `Node` for no node, then `Settled` if it has decided, `Busy` in request or grant, and
    /// `Spent` at round 65,535.
    pub fn draw<R: Radio>(&mut self, k: u8, v: u32, radio: &mut R) -> Result<Lottery, Refusal>
        ensures made { Does R.ways self.old self.new (R.state radio.old) (R.state radio.new) (λ m b. drawn m b k v) }
        ensures value { result ≡ (drawn self.old.map self.old.nodes k v).answer }
        ensures lawful { Lawful self.old.nodes self.new.nodes (R.state radio.old) (R.state radio.new) k result }
    {
        let node = self.node(k)?;
        if node.slot != 0 {
            return Err(Refusal::Settled);
        }
        if node.phase == Phase::Request || node.phase == Phase::Grant {
            return Err(Refusal::Busy);
        }
        if node.round == u16::MAX {
            return Err(Refusal::Spent);
        }
        if !self.wins(k, v) {
            return Ok(Lottery::Lost);
        }
        let round = node.round + 1;
        self.nodes[k as usize] = Node {
            phase: Phase::Request,
            round,
            granted: Marks::empty(),
            taken: Marks::empty(),
            ..node
        };
        if self.map.neighbours(k).is_empty() {
            self.settle(k, radio);
            return Ok(Lottery::Decided);
        }
        send_to_all(radio, &self.map, Message::new(Kind::Request, round, k, k));
        Ok(Lottery::Asked)
    }

    /// Sends again what may have been lost: a node in request asks those that have not granted, a
    /// node in grant repeats its grant. Answers how many messages it sent.
    ///
    /// Refuses `Node` for no node, then `Quiet` in idle or release.
    pub fn nudge<R: Radio>(&self, k: u8, radio: &mut R) -> Result<u8, Refusal>
        ensures radio { R.state radio.new ≡ puts R.ways (R.state radio.old) (nudged self.now.map self.now.nodes k).sent }
        ensures value { result ≡ (nudged self.now.map self.now.nodes k).answer }
        ensures lawful { Lawful self.now.nodes self.now.nodes (R.state radio.old) (R.state radio.new) k result }
    {
        let node = self.node(k)?;
        match node.phase {
            Phase::Request => {
                let request = Message::new(Kind::Request, node.round, k, k);
                Ok(send_to_rest(radio, &self.map, request, node.granted))
            }
            Phase::Grant => {
                radio.put(node.grant(node.term, k, node.holder));
                Ok(1)
            }
            Phase::Idle | Phase::Release => Err(Refusal::Quiet),
        }
    }
}

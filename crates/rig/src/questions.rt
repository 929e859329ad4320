//! What a rig tells.
ghost use Rattle.std.specs.Prelude.{◌≡◌};
ghost use Rattle.rig.specs.Questions.{Slots, told};

use crate::{Node, Phase, Rig};
use map::Map;
use refusal::Refusal;

impl Rig {
    /// The rig's own copy of the map.
    pub fn map(&self) -> Map
        ensures { result ≡ self.now.map }
    {
        self.map
    }

    /// Node `k`; refuses `Node` for no node.
    pub(crate) fn node(&self, k: u8) -> Result<Node, Refusal>
        ensures { result ≡ told self.now k (λ v. v) }
    {
        if k >= self.map.count() {
            return Err(Refusal::Node);
        }
        Ok(self.nodes[k as usize])
    }

    /// The phase of node `k`; refuses `Node` for no node.
    pub fn phase(&self, k: u8) -> Result<Phase, Refusal>
        ensures { result ≡ told self.now k (λ v. v.phase) }
    {
        Ok(self.node(k)?.phase)
    }

    /// The slot of node `k`, 0 until it decides; refuses `Node` for no node.
    pub fn slot(&self, k: u8) -> Result<u8, Refusal>
        ensures { result ≡ told self.now k (λ v. v.slot) }
    {
        Ok(self.node(k)?.slot)
    }

    /// The turn of node `k`, 0 until it decides; refuses `Node` for no node.
    pub fn turn(&self, k: u8) -> Result<u8, Refusal>
        ensures { result ≡ told self.now k (λ v. v.turn) }
    {
        Ok(self.node(k)?.turn)
    }

    /// The round of node `k`; refuses `Node` for no node.
    pub fn round(&self, k: u8) -> Result<u16, Refusal>
        ensures { result ≡ told self.now k (λ v. v.round) }
    {
        Ok(self.node(k)?.round)
    }

    /// The slots of all nodes by rising number, and 0 past them.
    pub fn slots(&self) -> [u16; 64]
        ensures { Slots self.now result }
    {
        let nodes = &self.nodes[..self.map.count() as usize];
        let mut table = [0; 64];
        // By place: of what a walk over `iter_mut` writes nothing is known.
        for (k, node) in nodes.iter().enumerate() {
            table[k] = u16::from(node.slot);
        }
        table
    }
}

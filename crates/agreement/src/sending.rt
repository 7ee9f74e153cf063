//! What an honest node sends, and to how many.
ghost use Rattle.std.specs.Prelude.{◌≡◌, None, nat_le};
ghost use Rattle.board.specs.Tables.{node_at, faulty_at};
ghost use Rattle.refusal.specs.Refusals.{refuse, answered};
ghost use Rattle.refusal.specs.declared.Refusal.TheVariants.{NoNode, FaultyNode};

use super::states::Instance;
use refusal::Refusal;

impl Instance {
    // How many nodes there are.
    pub fn nodes(&self) -> usize
        ensures { result ≡ self.now.table.n }
    {
        self.table.n
    }

    // How many items there are.
    pub fn items(&self) -> usize
        ensures { result ≡ self.now.table.m }
    {
        self.table.m
    }

    // An honest node's bits, by item; those of no item are as they stand.
    pub fn bits(&self, node: usize) -> Result<[bool; 16], Refusal>
        ensures { result ≡ answered (refuse (nat_le self.now.table.n node) NoNode (refuse (faulty_at self.now.table node) FaultyNode None)) (node_at self.now.table node).bits }
    {
        if node >= self.table.n {
            return Err(Refusal::NoNode);
        }
        if self.table.is_faulty(node) {
            return Err(Refusal::FaultyNode);
        }
        Ok(self.table.nodes[node].bits)
    }
}

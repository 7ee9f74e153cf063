//! The records of the nodes, how the table of them is read, and the places on the boards.
ghost use Rattle.std.specs.Prelude.{◌≡◌, ◌+◌, ◌*◌, ◌<◌, ◌≤◌, not, ◌==◌};
ghost use Rattle.board.specs.Tables.{new_node, faulty_at, bit_at, decided_at, final_at, cells_needed, marks_needed, cell_place, mark_place, undecided_at, undecided_in, undecided_count};

use super::states::{Node, Table};

impl Node {
    // An honest node that has decided nothing.
    #[tactic(auto, using(crate::proofs::Paths::new_default))]
    pub fn new() -> Node
        ensures { result ≡ new_node }
    {
        Node::default()
    }

    // Whether one of the first items is undecided at this node, if it is honest.
    fn any_undecided(&self, items: usize) -> bool
        requires { items ≤ 16 }
        ensures { result ≡ not (undecided_in self.now items == 0) }
    {
        !self.faulty && self.decided[..items].iter().any(|decided| !*decided)
    }

    // How many of the first items are undecided at this node, if it is honest; 0 at a faulty one.
    fn count_undecided(&self, items: usize) -> usize
        requires { items ≤ 16 }
        ensures is { result ≡ undecided_in self.now items }
        ensures few { result ≤ items }
    {
        if self.faulty {
            return 0;
        }
        self.decided[..items]
            .iter()
            .filter(|decided| !**decided)
            .count()
    }
}

// A node and an item stay two numbers, which is plainer: a type for the pair would have to lend the table to say that they are below its sizes.
impl Table {
    // How many places the values board and the scratch board need.
    pub fn cells_needed(&self) -> usize
        ensures { result ≡ cells_needed self.now }
    {
        self.n * self.m
    }

    // How many places the sent board and the marks board need.
    pub fn marks_needed(&self) -> usize
        ensures { result ≡ marks_needed self.now }
    {
        self.n * self.n * self.m
    }

    // Whether a node is faulty.
    pub fn is_faulty(&self, node: usize) -> bool
        requires { node < self.now.n }
        ensures { result ≡ faulty_at self.now node }
    {
        self.nodes[node].faulty
    }

    // A node's bit of an item.
    pub fn bit(&self, node: usize, item: usize) -> bool
        requires { (node < self.now.n) × (item < self.now.m) }
        ensures { result ≡ bit_at self.now node item }
    {
        self.nodes[node].bits[item]
    }

    // Whether a node has decided an item.
    pub fn is_decided(&self, node: usize, item: usize) -> bool
        requires { (node < self.now.n) × (item < self.now.m) }
        ensures { result ≡ decided_at self.now node item }
    {
        self.nodes[node].decided[item]
    }

    // Whether a sender's bits for a receiver are final.
    pub fn is_final(&self, sender: usize, receiver: usize) -> bool
        requires { (sender < self.now.n) × (receiver < self.now.n) }
        ensures { result ≡ final_at self.now sender receiver }
    {
        self.nodes[sender].finals[receiver]
    }

    // Whether an item is undecided at a node that is honest.
    pub(crate) fn is_undecided(&self, node: usize, item: usize) -> bool
        requires { (node < self.now.n) × (item < self.now.m) }
        ensures { result ≡ undecided_at self.now node item }
    {
        !self.nodes[node].faulty && !self.nodes[node].decided[item]
    }

    // The place of a node's cell for an item.
    pub fn cell_place(&self, node: usize, item: usize) -> usize
        requires { (node < self.now.n) × (item < self.now.m) }
        ensures is { result ≡ cell_place self.now node item }
        ensures within { result < cells_needed self.now }
    {
        node * self.m + item
    }

    // The row of a sender and a receiver on the sent board and the marks board.
    pub fn row(&self, sender: usize, receiver: usize) -> usize
        requires { (sender < self.now.n) × (receiver < self.now.n) }
        ensures is { result ≡ sender * self.now.n + receiver }
        ensures within { result < self.now.n * self.now.n }
    {
        sender * self.n + receiver
    }

    // The place of what a sender sent to a receiver for an item.
    pub fn mark_place(&self, sender: usize, receiver: usize, item: usize) -> usize
        requires { (sender < self.now.n) × (receiver < self.now.n) × (item < self.now.m) }
        ensures is { result ≡ mark_place self.now sender receiver item }
        ensures within { result < marks_needed self.now }
    {
        (sender * self.n + receiver) * self.m + item
    }

    // Whether an item of an honest node is undecided.
    pub fn any_undecided(&self) -> bool
        ensures { result ≡ not (undecided_count self.now == 0) }
    {
        self.nodes[..self.n]
            .iter()
            .any(|node| node.any_undecided(self.m))
    }

    // How many items of honest nodes are undecided.
    pub fn count_undecided(&self) -> usize
        ensures { result ≡ undecided_count self.now }
    {
        self.nodes[..self.n]
            .iter()
            .map(|node| node.count_undecided(self.m))
            .sum()
    }
}

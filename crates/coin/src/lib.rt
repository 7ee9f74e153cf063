//! Coins: the bit that each node gets for a round and an item. True is 1.
#![tactic(auto)]

ghost use Rattle.std.specs.Prelude.{◌≡◌, ◌<◌, ◌≤◌, ℕ, Bool, false, length};
ghost use Rattle.coin.specs.Tosses.{toss_of, no_toss, strip_toss, strip_refusal, seeded_toss, crossed_toss};
ghost use Rattle.refusal.specs.Refusals.{answered};
ghost use Rattle.std.specs.Result.{result_map_both};
ghost use Rattle.std.proofs.Common.{rules};

use refusal::Refusal;

// A coin: a toss for each node, round and item. Tossing changes nothing.
pub trait Coin {
    // the coin's meaning: its toss for a node, a round and an item
    ghost tosses: { Self → ℕ → ℕ → ℕ → Bool };

    // The toss of any node; 0 for round 0 and for an item above 15.
    fn toss(&self, node: usize, round: usize, item: usize) -> bool
        ensures { result ≡ toss_of (tosses self.now) node round item };

    // Every coin tosses 0 for round 0.
    ghost before_rounds: { (coin : Self) (node item : ℕ) → toss_of (tosses coin) node 0 item ≡ false } = { Prim.search rules };

    // Every coin tosses 0 for an item above 15.
    ghost past_items: { (coin : Self) (node round item : ℕ) → 15 < item → toss_of (tosses coin) node round item ≡ false } = { Prim.search rules };
}

// Whether every coin gives 0 there.
fn no_toss(round: usize, item: usize) -> bool
    ensures { result ≡ no_toss round item }
{
    round == 0 || item > 15
}

// A coin that reads its tosses off lent entries, again from the first after the last.
#[derive(Drop)]
pub struct Strip<'a> {
    entries: &'a [u16],
    // There are 1 to 1,024 entries.
    ghost counted: { (1 ≤ length entries.now) × (length entries.now ≤ 1024) },
}

impl<'a> Strip<'a> {
    // The strip over 1 to 1,024 entries.
    pub fn new(entries: &'a [u16]) -> Result<Strip<'a>, Refusal>
        ensures { result_map_both (λ s. s.entries.now) (λ e. e) result ≡ answered (strip_refusal (length entries.now)) entries.now }
    {
        match entries.len() {
            1..=1024 => Ok(Strip { entries }),
            _ => Err(Refusal::Short),
        }
    }
}

impl<'a> Coin for Strip<'a> {
    ghost tosses = { λ s _ k c. strip_toss s.entries.now k c };

    fn toss(&self, _node: usize, round: usize, item: usize) -> bool {
        if no_toss(round, item) {
            return false;
        }
        let entry = self.entries[(round - 1) % self.entries.len()];
        (entry >> item) % 2 == 1
    }
}

// A coin that computes its tosses from a seed.
#[derive(Clone, Copy)]
pub struct Seeded {
    seed: u64,
}

impl Seeded {
    // The coin with this seed.
    pub fn new(seed: u64) -> Seeded
        ensures { result.seed ≡ seed }
    {
        Seeded { seed }
    }
}

impl Coin for Seeded {
    ghost tosses = { λ s _ k c. seeded_toss s.seed k c };

    fn toss(&self, _node: usize, round: usize, item: usize) -> bool {
        if no_toss(round, item) {
            return false;
        }
        let place = (round as u64)
            .wrapping_mul(16)
            .wrapping_add(item as u64)
            .wrapping_add(1);
        let mixed = place.wrapping_mul(0x9E3779B97F4A7C15);
        (self.seed & mixed).count_ones() % 2 == 1
    }
}

// A coin over another: even nodes get its toss, odd nodes the opposite.
#[derive(Drop)]
pub struct Crossed<C> {
    inner: C,
}

impl<C> Crossed<C> {
    // The crossed coin over this one.
    pub fn new(inner: C) -> Crossed<C>
        ensures { result.inner ≡ inner }
    {
        Crossed { inner }
    }
}

impl<C: Coin> Coin for Crossed<C> {
    ghost tosses = { λ s. crossed_toss (C.Coin.tosses s.inner) };

    fn toss(&self, node: usize, round: usize, item: usize) -> bool {
        if no_toss(round, item) {
            return false;
        }
        let tossed = self.inner.toss(node, round, item);
        if node % 2 == 1 { !tossed } else { tossed }
    }
}

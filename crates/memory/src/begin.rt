// The sizes, and a fresh memory.
ghost use Rattle.std.specs.Prelude.{◌≡◌};
ghost use Rattle.memory.specs.Fresh.{sizes_in, within, good_sizes, zeros, fresh_block, begun, fresh_of};

use crate::block::{load, save};
use crate::{Memory, Sizes};

#[tactic(auto, unfolding(crate::specs::Block::slot))]
pub fn read_sizes(m: &Memory) -> Sizes
    ensures { result ≡ sizes_in m.now }
{
    Sizes {
        n: load(m, 640),
        k: load(m, 641),
        w: load(m, 642),
    }
}

fn good_sizes(n: u64, k: u64, w: u64) -> bool
    ensures { result ≡ good_sizes n k w }
{
    (1..=64).contains(&n) && (1..=16).contains(&k) && (1..=8).contains(&w)
}

#[tactic(auto, unfolding(crate::specs::Block::slot))]
fn start(m: &mut Memory, n: u64, k: u64, w: u64)
    ensures { m.new ≡ fresh_block n k w }
{
    *m = [0; 646];
    save(m, 640, n);
    save(m, 641, k);
    save(m, 642, w);
}

// Three numbers and a bool, and no Sizes and Result: `fresh_of` is promised so. A fresh memory of these sizes; where one is out of its range, nothing changes and the answer is false.
#[tactic(auto, unfolding(crate::specs::Fresh::fresh_of))]
pub fn fresh(m: &mut Memory, n: u64, k: u64, w: u64) -> bool
    ensures { begun m.new result ≡ fresh_of m.old n k w }
{
    if good_sizes(n, k, w) {
        start(m, n, k, w);
        return true;
    }
    false
}

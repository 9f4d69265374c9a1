// Where each number of the block stands.
ghost use Rattle.std.specs.Prelude.{◌≡◌, ◌≤◌};
ghost use Rattle.memory.specs.Block.{at, store, base_of, slot};
ghost use Rattle.memory.specs.Block.Field.{word, status, body};

use crate::{Copy, Memory};

#[tactic(auto, unfolding(crate::specs::Block::at))]
pub(crate) fn load(m: &Memory, i: usize) -> u64
    ensures { result ≡ at m.now i }
{
    m.get(i).copied().unwrap_or(0)
}

#[tactic(auto, unfolding(crate::specs::Block::store))]
pub(crate) fn save(m: &mut Memory, i: usize, v: u64)
    ensures { m.new ≡ store m.old i v }
{
    if i < m.len() {
        m[i] = v;
    }
}

// The number at one slot goes to another.
pub(crate) fn copy_number(m: &mut Memory, from: usize, to: usize)
    ensures { m.new ≡ store m.old to (at m.old from) }
{
    let x = load(m, from);
    save(m, to, x);
}

pub(crate) fn base(c: Copy) -> usize
    ensures { (result ≡ base_of c) × (result ≤ 288) }
{
    match c {
        Copy::Cached => 0,
        Copy::Persisted => 288,
    }
}

// A slot, and no Option: 646 is nowhere, as in the definition (`slot`), and a body is copied from it on (`copied`).
#[tactic(auto, unfolding(crate::specs::Block::slot))]
pub(crate) fn word_slot(c: Copy, a: u64) -> usize
    ensures { result ≡ slot (word c a) }
{
    if a < 64 {
        return base(c) + a as usize;
    }
    646
}

#[tactic(auto, unfolding(crate::specs::Block::slot))]
pub(crate) fn status_slot(c: Copy, d: u64) -> usize
    ensures { result ≡ slot (status c d) }
{
    if d < 16 {
        return base(c) + 64 + d as usize;
    }
    646
}

#[tactic(auto, unfolding(crate::specs::Block::slot))]
pub(crate) fn body_slot(c: Copy, d: u64, j: u64) -> usize
    ensures { (result ≡ slot (body c d j)) × (result ≤ 646) }
{
    if d < 16 && j < 13 {
        return base(c) + 80 + 13 * d as usize + j as usize;
    }
    646
}

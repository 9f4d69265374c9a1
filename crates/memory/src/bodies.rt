// Bodies: a count and four entries.
ghost use Rattle.std.specs.Prelude.{◌≡◌, ◌+◌, ◌≤◌};
ghost use Rattle.memory.specs.Block.{get, put};
ghost use Rattle.memory.specs.Block.Field.{body};
ghost use Rattle.memory.specs.Content.{count_in, put_count, entry_in, put_entry, clear_body, copied, back_body, crash_copied};
ghost use Rattle.memory.specs.Value.{has_at, entry_for};

use crate::block::{body_slot, copy_number, load, save};
use crate::{Copy, Memory};
use steps::Entry;

// Number j of a body: 0 the count, then three numbers an entry.
fn part(m: &Memory, c: Copy, d: u64, j: u64) -> u64
    ensures { result ≡ get m.now (body c d j) }
{
    let i = body_slot(c, d, j);
    load(m, i)
}

fn put_part(m: &mut Memory, d: u64, j: u64, v: u64)
    ensures { m.new ≡ put m.old (body Copy.Cached d j) v }
{
    let i = body_slot(Copy::Cached, d, j);
    save(m, i, v);
}

pub fn read_count(m: &Memory, c: Copy, d: u64) -> u64
    ensures { result ≡ count_in c m.now d }
{
    part(m, c, d, 0)
}

pub fn put_count(m: &mut Memory, d: u64, n: u64)
    ensures { m.new ≡ put_count m.old d n }
{
    put_part(m, d, 0, n);
}

#[tactic(auto, unfolding(crate::specs::Content::entry_in, crate::specs::Block::slot, crate::specs::Block::at))]
pub fn read_entry(m: &Memory, c: Copy, d: u64, i: u64) -> Entry
    ensures { result ≡ entry_in c m.now d i }
{
    if i < 4 {
        let j = 3 * i;
        return Entry {
            address: part(m, c, d, 1 + j),
            expected: part(m, c, d, 2 + j),
            desired: part(m, c, d, 3 + j),
        };
    }
    Entry::default()
}

#[tactic(auto, unfolding(crate::specs::Block::slot, crate::specs::Block::store))]
pub fn put_entry(m: &mut Memory, d: u64, i: u64, e: Entry)
    ensures { m.new ≡ put_entry m.old d i e }
{
    if i < 4 {
        let j = 3 * i;
        put_part(m, d, 1 + j, e.address);
        put_part(m, d, 2 + j, e.expected);
        put_part(m, d, 3 + j, e.desired);
    }
}

// The cached body becomes zeros.
#[tactic(auto, unfolding(crate::specs::Content::cleared_to))]
pub fn clear_body(m: &mut Memory, d: u64)
    ensures { m.new ≡ clear_body m.old d }
{
    for j in 0..13 {
        put_part(m, d, j, 0);
    }
}

// One by one, as the definition has it: a slot may be nowhere, of which no part could be cut.
#[tactic(auto, unfolding(crate::specs::Content::copied))]
fn copy_numbers(m: &mut Memory, from: usize, to: usize, n: usize)
    requires { (from ≤ 646) × ((to ≤ 646) × (n ≤ 288)) }
    ensures { m.new ≡ copied m.old from to n }
{
    for i in 0..n {
        copy_number(m, from + i, to + i);
    }
}

pub fn back_body(m: &mut Memory, d: u64)
    ensures { m.new ≡ back_body m.old d }
{
    let from = body_slot(Copy::Cached, d, 0);
    let to = body_slot(Copy::Persisted, d, 0);
    copy_numbers(m, from, to, 13);
}

// A crash's copying: every cached word, status and body becomes the persisted one.
pub fn crash_copy(m: &mut Memory)
    ensures { m.new ≡ crash_copied m.old }
{
    copy_numbers(m, 288, 0, 288);
}

// Whether entry i is one of the body's, and for address a.
fn has_at(m: &Memory, c: Copy, d: u64, a: u64, i: u64) -> bool
    ensures { result ≡ has_at c m.now d a i }
{
    i < read_count(m, c, d) && read_entry(m, c, d, i).address == a
}

pub fn find_entry(m: &Memory, c: Copy, d: u64, a: u64) -> Option<u64>
    ensures { result ≡ entry_for c m.now d a }
{
    for i in 0..4 {
        if has_at(m, c, d, a, i) {
            return Some(i);
        }
    }
    None
}

// Records 01 to 03: opening a descriptor, adding and removing a word.
ghost use Rattle.std.specs.Prelude.{◌≡◌, ◌+◌, ◌<◌, ◌^◌};
ghost use Rattle.events.specs.Build as B;
ghost use Rattle.events.specs.Left.{left};

use crate::{Answer, Refusal};
use memory::{
    Copy, Memory, clear_body, put_count, put_entry, put_worker, read_count, read_entry,
    read_status, read_worker,
};
use steps::{Entry, Own, Worker};
use word::Status;

pub fn owner_of(o: Own, d: u64) -> bool
    ensures { result ≡ B.owner_of o d }
{
    o == Own::Operation(d)
}

fn owns(x: Worker, d: u64) -> bool
    ensures { result ≡ B.owns x d }
{
    match x {
        Worker::Building(e) => e == d,
        Worker::Working(o, _, _) => owner_of(o, d),
        _ => false,
    }
}

#[tactic(auto, using(crate::proofs::BuildLaws::owned_found), unfolding(crate::specs::Build::owned_below))]
fn owned(m: &Memory, d: u64) -> bool
    ensures { result ≡ B.owned_below m.now d 8 }
{
    for w in 0..8 {
        if owns(read_worker(m, w), d) {
            return true;
        }
    }
    false
}

#[tactic(auto, unfolding(crate::specs::Build::qualifies))]
fn qualifies(m: &Memory, d: u64) -> bool
    ensures { result ≡ B.qualifies m.now d }
{
    read_status(m, Copy::Cached, d) == Status::Free
        && read_status(m, Copy::Persisted, d) == Status::Free
        && !owned(m, d)
}

// The lowest descriptor below k that qualifies.
#[tactic(auto, using(crate::proofs::BuildLaws::lowest_here), unfolding(crate::specs::Build::lowest_below))]
pub fn lowest(m: &Memory, k: u64) -> Option<u64>
    ensures { result ≡ B.lowest_below m.now k }
{
    for d in 0..k {
        if qualifies(m, d) {
            return Some(d);
        }
    }
    None
}

pub fn open_found(m: &mut Memory, w: u64, f: Option<u64>) -> Answer
    ensures { left m.new result ≡ B.opened m.old w f }
{
    let Some(d) = f else {
        return Answer::from(Refusal::NoneQualifies);
    };
    clear_body(m, d);
    put_worker(m, w, Worker::Building(d));
    Answer::Opened(d)
}

// From entry i down, those for a higher address move up by one; e goes to the place left.
#[tactic(auto, unfolding(crate::specs::Build::inserted))]
fn insert(m: &mut Memory, count: u64, d: u64, e: Entry)
    ensures { m.new ≡ B.inserted count m.old d e }
{
    for i in (0..count).rev() {
        let x = read_entry(m, Copy::Cached, d, i);
        if x.address <= e.address {
            put_entry(m, d, i + 1, e);
            return;
        }
        put_entry(m, d, i + 1, x);
    }
    put_entry(m, d, 0, e);
}

// Kept sorted; a body has room for four.
#[tactic(auto, unfolding(crate::specs::Build::added))]
pub fn add(m: &mut Memory, d: u64, e: Entry)
    ensures { m.new ≡ B.added m.old d e }
{
    let n = read_count(m, Copy::Cached, d);
    if n < 4 {
        insert(m, n, d, e);
        put_count(m, d, n + 1);
    }
}

// The n entries after i move down; the place left over becomes zeros.
#[tactic(auto, unfolding(crate::specs::Build::moved_down))]
fn move_down(m: &mut Memory, n: u64, d: u64, i: u64)
    requires { i + n < 2 ^ 64 }
    ensures { m.new ≡ B.moved_down n m.old d i }
{
    for j in i..i + n {
        let x = read_entry(m, Copy::Cached, d, j + 1);
        put_entry(m, d, j, x);
    }
    put_entry(m, d, i + n, Entry::default());
}

#[tactic(auto, unfolding(crate::specs::Build::removed_entry))]
fn remove_entry(m: &mut Memory, d: u64, i: u64)
    ensures { m.new ≡ B.removed_entry m.old d i }
{
    let n = read_count(m, Copy::Cached, d);
    if i < n {
        move_down(m, n - 1 - i, d, i);
        put_count(m, d, n - 1);
    }
}

pub fn remove(m: &mut Memory, d: u64, f: Option<u64>)
    ensures { m.new ≡ B.removed_at m.old d f }
{
    if let Some(i) = f {
        remove_entry(m, d, i);
    }
}

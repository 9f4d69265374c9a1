// Workers and recovery's place.
ghost use Rattle.std.specs.Prelude.{◌≡◌, ◌≤◌};
ghost use Rattle.memory.specs.Content.{row_in, worker_in, put_worker, row_from, row_stored, idled, recovery_in, put_recovery};

use crate::Memory;
use crate::block::{load, save};
use codes::{RecoveryRow, Row, recovery_of, recovery_row, row_of, worker_of};
use steps::{Own, Place, RecoveryPlace, Worker};

// The row whose first number is at slot i. One test of the place serves all six numbers, here and in put_row.
fn row_from(m: &Memory, i: usize) -> Row
    requires { i ≤ 640 }
    ensures { result ≡ row_from m.now i }
{
    Row {
        tag: load(m, i),
        own: load(m, i + 1),
        job: load(m, i + 2),
        place: load(m, i + 3),
        entry: load(m, i + 4),
        noted: load(m, i + 5),
    }
}

fn put_row(m: &mut Memory, i: usize, r: Row)
    requires { i ≤ 640 }
    ensures { m.new ≡ row_stored m.old i r }
{
    save(m, i, r.tag);
    save(m, i + 1, r.own);
    save(m, i + 2, r.job);
    save(m, i + 3, r.place);
    save(m, i + 4, r.entry);
    save(m, i + 5, r.noted);
}

// The row of worker w; zeros, which are an idle worker's, where there is none.
#[tactic(auto, unfolding(crate::specs::Block::slot, crate::specs::Block::at))]
pub fn read_row(m: &Memory, w: u64) -> Row
    ensures { result ≡ row_in m.now w }
{
    if w < 8 {
        return row_from(m, 576 + 8 * w as usize);
    }
    Row::default()
}

pub fn read_worker(m: &Memory, w: u64) -> Worker
    ensures { result ≡ worker_in m.now w }
{
    worker_of(read_row(m, w))
}

// Inline: most steps store a worker that goes on, and are stored without a look at what else a worker can be.
#[inline]
#[tactic(auto, unfolding(crate::specs::Content::put_row, crate::specs::Block::slot, crate::specs::Block::store))]
pub fn put_worker(m: &mut Memory, w: u64, x: Worker)
    ensures { m.new ≡ put_worker m.old w x }
{
    if w < 8 {
        let r = row_of(x);
        put_row(m, 576 + 8 * w as usize, r);
    }
}

// The same for a worker that runs an operation: a promise of its own, and so not gone (`promises`).
pub fn put_working(m: &mut Memory, w: u64, o: Own, job: u64, p: Place)
    ensures { m.new ≡ put_worker m.old w (Worker.Working o job p) }
{
    put_worker(m, w, Worker::Working(o, job, p));
}

// All workers become idle.
#[tactic(auto, unfolding(crate::specs::Content::idled))]
pub fn idle_workers(m: &mut Memory)
    ensures { m.new ≡ idled m.old 8 }
{
    for w in 0..8 {
        put_worker(m, w, Worker::Idle);
    }
}

#[tactic(auto, unfolding(crate::specs::Block::slot, crate::specs::Block::at))]
pub fn read_recovery(m: &Memory) -> RecoveryPlace
    ensures { result ≡ recovery_in m.now }
{
    let s = RecoveryRow {
        on: load(m, 643),
        descriptor: load(m, 644),
        done: load(m, 645),
    };
    recovery_of(s)
}

#[tactic(auto, unfolding(crate::specs::Block::slot))]
pub fn put_recovery(m: &mut Memory, p: RecoveryPlace)
    ensures { m.new ≡ put_recovery m.old p }
{
    let s = recovery_row(p);
    save(m, 643, s.on);
    save(m, 644, s.descriptor);
    save(m, 645, s.done);
}

// A worker and recovery's place as numbers of the block, and back. Nothing else knows these numbers.
#![tactic(auto)]

ghost use Rattle.std.specs.Prelude.{◌≡◌};
ghost use Rattle.codes.specs.Place.{place_of, place_number, place_entry, place_noted};
ghost use Rattle.codes.specs.Row.{place_in, own_in, is_working, worker_of, row_of, row_bare, row_at, recovery_of, recovery_row};

use steps::{Own, Place, RecoveryPlace, Worker};
use word::Outcome;

// A worker's row: what it is, what it owns, its current job, its place there, the entry, what it noted. Numbers, and no enums: the
// block holds them, and any number that stands there is read.
#[derive(Clone, Copy, PartialEq, Eq, Default, Debug)]
pub struct Row {
    pub tag: u64,
    pub own: u64,
    pub job: u64,
    pub place: u64,
    pub entry: u64,
    pub noted: u64,
}

// Recovery's place: whether there is one, the descriptor, the steps done. Three numbers of the block, and so no
// Option: `recovery_of` promises a place for any three.
#[derive(Clone, Copy, PartialEq, Eq, Default, Debug)]
pub struct RecoveryRow {
    pub on: u64,
    pub descriptor: u64,
    pub done: u64,
}

#[tactic(auto, unfolding(crate::specs::Place::place_of))]
fn place_of(k: u64, i: u64, v: u64) -> Place
    ensures { result ≡ place_of k i v }
{
    match k {
        1 => Place::StoreUndecided,
        2 => Place::BackUndecided,
        3 => Place::Install(i),
        4 => Place::InstallClear(i, v),
        5 => Place::Persist(i),
        6 => Place::PersistClear(i),
        7 => Place::Decide(Outcome::Succeeded),
        8 => Place::Decide(Outcome::Failed),
        9 => Place::Settle,
        10 => Place::SettleClear,
        11 => Place::Swap(i),
        12 => Place::SwapBack(i),
        13 => Place::SwapClear(i),
        14 => Place::StoreFree,
        15 => Place::BackFree(Outcome::Succeeded),
        16 => Place::BackFree(Outcome::Failed),
        _ => Place::BackBody,
    }
}

fn outcome_or(o: Outcome, s: u64, f: u64) -> u64
    ensures { result ≡ Rattle.codes.specs.Place.outcome_or o s f }
{
    match o {
        Outcome::Succeeded => s,
        Outcome::Failed => f,
    }
}

fn place_number(p: Place) -> u64
    ensures { result ≡ place_number p }
{
    match p {
        Place::BackBody => 0,
        Place::StoreUndecided => 1,
        Place::BackUndecided => 2,
        Place::Install(_) => 3,
        Place::InstallClear(_, _) => 4,
        Place::Persist(_) => 5,
        Place::PersistClear(_) => 6,
        Place::Decide(o) => outcome_or(o, 7, 8),
        Place::Settle => 9,
        Place::SettleClear => 10,
        Place::Swap(_) => 11,
        Place::SwapBack(_) => 12,
        Place::SwapClear(_) => 13,
        Place::StoreFree => 14,
        Place::BackFree(o) => outcome_or(o, 15, 16),
    }
}

// The entry that a place is at; 0 where it is at none.
fn place_entry(p: Place) -> u64
    ensures { result ≡ place_entry p }
{
    match p {
        Place::Install(i)
        | Place::InstallClear(i, _)
        | Place::Persist(i)
        | Place::PersistClear(i)
        | Place::Swap(i)
        | Place::SwapBack(i)
        | Place::SwapClear(i) => i,
        _ => 0,
    }
}

// The value that it has noted; 0 where it has none.
fn place_noted(p: Place) -> u64
    ensures { result ≡ place_noted p }
{
    match p {
        Place::InstallClear(_, v) => v,
        _ => 0,
    }
}

// The place of a worker that runs an operation.
pub fn place_in(r: Row) -> Place
    ensures { result ≡ place_in r }
{
    place_of(r.place, r.entry, r.noted)
}

// The worker runs an operation, its own or another's.
#[tactic(auto, unfolding(crate::specs::Row::worker_of))]
pub fn is_working(r: Row) -> bool
    ensures { result ≡ is_working (worker_of r) }
{
    matches!(r.tag, 2 | 3)
}

// What it owns then.
pub fn own_in(r: Row) -> Own
    ensures { result ≡ own_in r }
{
    if r.tag == 3 {
        return Own::Read(r.own);
    }
    Own::Operation(r.own)
}

// Functions, and no From: pages and theorems know each by its definition's name.
#[tactic(auto, unfolding(crate::specs::Row::worker_of))]
pub fn worker_of(r: Row) -> Worker
    ensures { result ≡ worker_of r }
{
    let p = place_in(r);
    match r.tag {
        1 => Worker::Building(r.own),
        2 => Worker::Working(Own::Operation(r.own), r.job, p),
        3 => Worker::Working(Own::Read(r.own), r.job, p),
        4 => Worker::Reading(r.own),
        5 => Worker::ReadClear(r.own, r.noted),
        _ => Worker::Idle,
    }
}

fn row_bare(tag: u64, own: u64, noted: u64) -> Row
    ensures { result ≡ row_bare tag own noted }
{
    Row {
        tag,
        own,
        noted,
        ..Row::default()
    }
}

fn row_at(tag: u64, own: u64, job: u64, p: Place) -> Row
    ensures { result ≡ row_at tag own job p }
{
    Row {
        tag,
        own,
        job,
        place: place_number(p),
        entry: place_entry(p),
        noted: place_noted(p),
    }
}

// The row of a worker that runs an operation: a promise of its own (`promises`).
pub fn row_working(o: Own, job: u64, p: Place) -> Row
    ensures { result ≡ Rattle.codes.specs.Row.row_working o job p }
{
    match o {
        Own::Operation(d) => row_at(2, d, job, p),
        Own::Read(a) => row_at(3, a, job, p),
    }
}

pub fn row_of(x: Worker) -> Row
    ensures { result ≡ row_of x }
{
    match x {
        Worker::Idle => row_bare(0, 0, 0),
        Worker::Building(d) => row_bare(1, d, 0),
        Worker::Working(o, e, p) => row_working(o, e, p),
        Worker::Reading(a) => row_bare(4, a, 0),
        Worker::ReadClear(a, v) => row_bare(5, a, v),
    }
}

#[tactic(auto, unfolding(crate::specs::Row::recovery_of))]
pub fn recovery_of(s: RecoveryRow) -> RecoveryPlace
    ensures { result ≡ recovery_of s }
{
    if s.on == 0 {
        return RecoveryPlace::Outside;
    }
    RecoveryPlace::At(s.descriptor, s.done)
}

pub fn recovery_row(p: RecoveryPlace) -> RecoveryRow
    ensures { result ≡ recovery_row p }
{
    match p {
        RecoveryPlace::Outside => RecoveryRow::default(),
        RecoveryPlace::At(d, s) => RecoveryRow {
            on: 1,
            descriptor: d,
            done: s,
        },
    }
}

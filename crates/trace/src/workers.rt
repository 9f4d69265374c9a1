// What a worker owns, the step whose turn it is; and where recovery is.
use crate::decimal::Decimal;
use crate::lines::Line;
use crate::page::Page;
use memory::{Memory, read_recovery, read_worker};
use std::fmt;
use std::fmt::Write;
use steps::{Own, Place, RecoveryPlace, Worker};
use word::Outcome;

// The step by document 01's number, what it does, and what it has noted: the value seen, or the answer.
fn put_step(page: &mut Page, p: Place) -> fmt::Result {
    match p {
        Place::BackBody => write!(page, "  1 write back body"),
        Place::StoreUndecided => write!(page, "  1 store Undecided"),
        Place::BackUndecided => write!(page, "  1 write back status"),
        Place::Install(i) => write!(page, "  2 install entry {}", Decimal(i)),
        Place::InstallClear(i, v) => write!(
            page,
            "  2 clear entry {}, {} seen",
            Decimal(i),
            Decimal(v)
        ),
        Place::Persist(i) => write!(page, "  3 write back entry {}", Decimal(i)),
        Place::PersistClear(i) => write!(page, "  3 clear entry {}", Decimal(i)),
        Place::Decide(Outcome::Succeeded) => write!(page, "  4 store Succeeded"),
        Place::Decide(Outcome::Failed) => write!(page, "  4 store Failed"),
        Place::Settle => write!(page, "  5 write back status"),
        Place::SettleClear => write!(page, "  5 clear status"),
        Place::Swap(i) => write!(page, "  6 swap entry {}", Decimal(i)),
        Place::SwapBack(i) => write!(page, "  6 write back entry {}", Decimal(i)),
        Place::SwapClear(i) => write!(page, "  6 clear entry {}", Decimal(i)),
        Place::StoreFree => write!(page, "  7 store Free"),
        Place::BackFree(Outcome::Succeeded) => write!(page, "  7 write back status, then S"),
        Place::BackFree(Outcome::Failed) => write!(page, "  7 write back status, then F"),
    }
}

// A worker on its own operation helps nobody.
fn put_job(page: &mut Page, own: Own, job: u64) -> fmt::Result {
    match own {
        Own::Operation(d) => write!(page, "  operation {}", Decimal(d))?,
        Own::Read(a) => write!(page, "  read {}", Decimal(a))?,
    }
    if own == Own::Operation(job) {
        return Ok(());
    }
    write!(page, "  helps {}", Decimal(job))
}

impl Line for Worker {
    fn read(m: &Memory, w: u64) -> Self {
        read_worker(m, w)
    }

    fn put(&self, page: &mut Page, w: u64) -> fmt::Result {
        write!(page, "  worker {}", Decimal(w))?;
        match *self {
            Worker::Idle => write!(page, "  idle"),
            Worker::Building(d) => write!(page, "  building {}", Decimal(d)),
            Worker::Working(own, job, p) => {
                put_job(page, own, job)?;
                put_step(page, p)
            }
            Worker::Reading(a) => write!(page, "  read {}  read word", Decimal(a)),
            Worker::ReadClear(a, v) => write!(
                page,
                "  read {}  read clear, {} seen",
                Decimal(a),
                Decimal(v)
            ),
        }
    }
}

impl Line for RecoveryPlace {
    // There is one recovery.
    fn read(m: &Memory, _: u64) -> Self {
        read_recovery(m)
    }

    fn put(&self, page: &mut Page, _: u64) -> fmt::Result {
        match *self {
            RecoveryPlace::Outside => write!(page, "  recovery  outside"),
            RecoveryPlace::At(d, done) => write!(
                page,
                "  recovery  descriptor {}, {} done",
                Decimal(d),
                Decimal(done)
            ),
        }
    }
}

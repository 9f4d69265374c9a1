// Record 07: one step of a worker.
ghost use Rattle.std.specs.Prelude.{◌≡◌, false};
ghost use Rattle.codes.specs.Row.{is_working, worker_of};
ghost use Rattle.machine.specs.Step as S;
ghost use Rattle.events.specs.Left.{left};

use codes::{Row, is_working, own_in, place_in, worker_of};
use events::{Answer, Refusal, owner_of};
use memory::{
    Copy, Memory, back_body, back_status, back_word, put_status, put_word, put_worker, put_working,
    read_count, read_entry, read_status, read_word, read_worker,
};
use steps::{
    Effect, Next, Own, Place, Plan, ReadNext, Seen, Worker, decide, goes, install, install_clear,
    persist_clear, planned, read_clear_plan, read_plan, settle, settle_clear, store_free, swap,
    swap_clear,
};
use word::Status;

// What a step at entry i of d looks at.
#[tactic(auto, unfolding(crate::specs::Step::seen_in))]
pub(crate) fn look(m: &Memory, c: Copy, d: u64, i: u64) -> Seen
    ensures { result ≡ S.seen_in c m.now d i }
{
    let entry = read_entry(m, c, d, i);
    let word = read_word(m, Copy::Cached, entry.address);
    let status = read_status(m, c, d);
    Seen {
        status,
        count: read_count(m, c, d),
        entry,
        word,
    }
}

// The one effect of a step of d. An operation's step has an instance of its own, called from one place, so that the compiler puts it
// there and sees which effect each place has: with one for all, `tick` is slower.
pub(crate) fn perform<const OPERATION: bool>(m: &mut Memory, d: u64, e: Effect)
    ensures { m.new ≡ S.performed m.old d e }
{
    match e {
        Effect::Nothing => {}
        Effect::StoreWord(a, s) => put_word(m, a, s),
        Effect::BackWord(a) => back_word(m, a),
        Effect::StoreStatus(s) => put_status(m, d, s),
        Effect::BackStatus => back_status(m, d),
        Effect::BackBody => back_body(m, d),
    }
}

fn on_job(x: Worker, d: u64) -> bool
    ensures { result ≡ S.on_job x d }
{
    matches!(x, Worker::Working(_, e, _) if e == d)
}

#[tactic(auto, unfolding(crate::specs::Step::other_on))]
fn other_on(m: &Memory, w: u64, d: u64, v: u64) -> bool
    ensures { result ≡ S.other_on m.now w d v }
{
    v != w && on_job(read_worker(m, v), d)
}

// Another worker than w is on d.
#[tactic(auto, using(crate::proofs::StepLaws::others_found), unfolding(crate::specs::Step::others_on))]
fn others_on(m: &Memory, w: u64, d: u64) -> bool
    ensures { result ≡ S.others_on m.now w d 8 }
{
    for v in 0..8 {
        if other_on(m, w, d, v) {
            return true;
        }
    }
    false
}

fn start_of(o: Own) -> Worker
    ensures { result ≡ S.start_of o }
{
    match o {
        Own::Operation(d) => Worker::Working(o, d, Place::Install(0)),
        Own::Read(a) => Worker::Reading(a),
    }
}

// The address of entry i of d.
#[tactic(auto, unfolding(crate::specs::Step::seen_in))]
fn address_of(m: &Memory, d: u64, i: u64) -> u64
    ensures { result ≡ (S.seen_in Copy.Cached m.now d i).entry.address }
{
    read_entry(m, Copy::Cached, d, i).address
}

// A worker at work: what it owns, the operation that is its current job, its place there. Compared and shown nowhere, so it derives no more.
#[derive(Clone, Copy)]
struct Work {
    worker: u64,
    own: Own,
    job: u64,
    place: Place,
}

// The plan of a step, from what its place needs to see and no more. A match, and no closures: the compiler sees each place's effect.
#[tactic(auto, unfolding(crate::specs::Step::plan_at, crate::specs::Step::seen_in))]
fn plan_at(m: &Memory, x: Work) -> Plan<Next>
    ensures { result ≡ S.plan_at m.now x.worker x.own x.job x.place }
{
    let d = x.job;
    match x.place {
        Place::BackBody => goes(Effect::BackBody, Place::StoreUndecided),
        Place::StoreUndecided => goes(Effect::StoreStatus(Status::Undecided), Place::BackUndecided),
        Place::BackUndecided => goes(Effect::BackStatus, Place::Install(0)),
        Place::Install(i) => install(i, d, look(m, Copy::Cached, d, i)),
        Place::InstallClear(i, v) => install_clear(i, v, look(m, Copy::Cached, d, i)),
        Place::Persist(i) => goes(
            Effect::BackWord(address_of(m, d, i)),
            Place::PersistClear(i),
        ),
        Place::PersistClear(i) => persist_clear(i, d, look(m, Copy::Cached, d, i)),
        Place::Decide(r) => decide(r, read_status(m, Copy::Cached, d)),
        Place::Settle => settle(read_status(m, Copy::Cached, d)),
        Place::SettleClear => settle_clear(read_status(m, Copy::Cached, d)),
        Place::Swap(i) => swap(i, d, look(m, Copy::Cached, d, i)),
        Place::SwapBack(i) => goes(Effect::BackWord(address_of(m, d, i)), Place::SwapClear(i)),
        Place::SwapClear(i) => swap_clear(i, look(m, Copy::Cached, d, i), owner_of(x.own, d)),
        Place::StoreFree => store_free(others_on(m, x.worker, d), read_status(m, Copy::Cached, d)),
        Place::BackFree(r) => planned(Effect::BackStatus, Next::Answer(r)),
    }
}

// What the worker becomes, and its answer.
fn arrive(m: &mut Memory, x: Work, n: Next) -> Answer
    ensures { left m.new result ≡ S.arrived m.old x.worker x.own x.job x.place n }
{
    match n {
        Next::Go(q) => {
            put_working(m, x.worker, x.own, x.job, q);
            Answer::Moved
        }
        Next::Help(f) => {
            put_working(m, x.worker, x.own, f, Place::Install(0));
            Answer::Helping(f)
        }
        Next::Over => {
            put_worker(m, x.worker, start_of(x.own));
            Answer::Moved
        }
        Next::Wait => {
            put_working(m, x.worker, x.own, x.job, x.place);
            Answer::Waits
        }
        Next::Answer(r) => {
            put_worker(m, x.worker, Worker::Idle);
            Answer::Answered(r)
        }
    }
}

#[tactic(auto, unfolding(crate::specs::Step::work_step))]
fn work_step(m: &mut Memory, x: Work) -> Answer
    ensures { left m.new result ≡ S.work_step m.old x.worker x.own x.job x.place }
{
    let q = plan_at(m, x);
    perform::<true>(m, x.job, q.effect);
    arrive(m, x, q.next)
}

fn read_after(a: u64, n: ReadNext) -> Worker
    ensures { result ≡ S.read_after a n }
{
    match n {
        ReadNext::Meet(e) => Worker::Working(Own::Read(a), e, Place::Install(0)),
        ReadNext::Clear(v) => Worker::ReadClear(a, v),
        ReadNext::Value(_) => Worker::Idle,
    }
}

fn read_answer(n: ReadNext) -> Answer
    ensures { result ≡ S.read_answer n }
{
    match n {
        ReadNext::Meet(e) => Answer::Helping(e),
        ReadNext::Clear(_) => Answer::Moved,
        ReadNext::Value(v) => Answer::Shows(v),
    }
}

fn read_out(m: &mut Memory, w: u64, a: u64, q: Plan<ReadNext>) -> Answer
    ensures { left m.new result ≡ S.read_out m.old w a q }
{
    perform::<false>(m, 0, q.effect);
    put_worker(m, w, read_after(a, q.next));
    read_answer(q.next)
}

#[tactic(auto, unfolding(crate::specs::Step::read_step))]
fn read_step(m: &mut Memory, w: u64, a: u64) -> Answer
    ensures { left m.new result ≡ S.read_step m.old w a }
{
    let s = read_word(m, Copy::Cached, a);
    read_out(m, w, a, read_plan(a, s))
}

#[tactic(auto, unfolding(crate::specs::Step::read_clear_step))]
fn read_clear_step(m: &mut Memory, w: u64, a: u64, v: u64) -> Answer
    ensures { left m.new result ≡ S.read_clear_step m.old w a v }
{
    let s = read_word(m, Copy::Cached, a);
    read_out(m, w, a, read_clear_plan(a, v, s))
}

// A step of a worker that runs no operation.
fn rest_step(m: &mut Memory, w: u64, x: Worker) -> Answer
    requires { is_working x ≡ false }
    ensures { left m.new result ≡ S.step_of m.old w x }
{
    match x {
        Worker::Reading(a) => read_step(m, w, a),
        Worker::ReadClear(a, v) => read_clear_step(m, w, a, v),
        _ => Answer::from(Refusal::RunsNothing),
    }
}

// A step of worker w, whose row is r. The place is read from the row where it is matched next, so that the compiler makes one choice of the two.
#[tactic(auto, using(codes::specs::Round::working_row))]
pub(crate) fn step(m: &mut Memory, w: u64, r: Row) -> Answer
    ensures { left m.new result ≡ S.step_of m.old w (worker_of r) }
{
    if is_working(r) {
        let x = Work {
            worker: w,
            own: own_in(r),
            job: r.job,
            place: place_in(r),
        };
        return work_step(m, x);
    }
    rest_step(m, w, worker_of(r))
}

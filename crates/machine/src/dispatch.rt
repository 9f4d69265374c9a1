// The machine: one event.
ghost use Rattle.std.specs.Prelude.{◌≡◌};
ghost use Rattle.machine.specs.Apply.{apply_of, answer};
ghost use Rattle.events.specs.Left.{left};

use crate::recovery::{crash, recover};
use crate::work::step;
use codes::worker_of;
use events::{
    Answer, Event, Refusal, add, build_of, lowest, open_found, refuse_add, refuse_descriptor,
    refuse_discard, refuse_open, refuse_read, refuse_recover, refuse_remove, refuse_step,
    refuse_submit, refuse_word, remove,
};
use memory::{
    Copy, Memory, back_body, back_status, back_word, find_entry, put_worker, read_recovery,
    read_row, read_sizes, read_worker,
};
use steps::{Entry, Own, Place, Worker};

#[tactic(auto, unfolding(crate::specs::Apply::apply_of, events::specs::Refusal::refusal_of))]
fn apply_open(m: &mut Memory, w: u64) -> Result<Answer, Refusal>
    ensures { left m.new (answer result) ≡ apply_of m.old (Event.Open w) }
{
    let x = read_worker(m, w);
    let f = lowest(m, read_sizes(m).k);
    refuse_open(m, w, x, f)?;
    Ok(open_found(m, w, f))
}

#[tactic(auto, unfolding(crate::specs::Apply::apply_of, events::specs::Refusal::refusal_of))]
fn apply_add(m: &mut Memory, w: u64, e: Entry) -> Result<Answer, Refusal>
    ensures { left m.new (answer result) ≡ apply_of m.old (Event.Add w e.address e.expected e.desired) }
{
    let x = read_worker(m, w);
    refuse_add(m, w, x, e)?;
    add(m, build_of(x), e);
    Ok(Answer::Ok)
}

#[tactic(auto, unfolding(crate::specs::Apply::apply_of, events::specs::Refusal::refusal_of))]
fn apply_remove(m: &mut Memory, w: u64, a: u64) -> Result<Answer, Refusal>
    ensures { left m.new (answer result) ≡ apply_of m.old (Event.Remove w a) }
{
    let x = read_worker(m, w);
    let d = build_of(x);
    let f = find_entry(m, Copy::Cached, d, a);
    refuse_remove(m, w, x, a, f)?;
    remove(m, d, f);
    Ok(Answer::Ok)
}

#[tactic(auto, unfolding(crate::specs::Apply::apply_of, events::specs::Refusal::refusal_of))]
fn apply_submit(m: &mut Memory, w: u64) -> Result<Answer, Refusal>
    ensures { left m.new (answer result) ≡ apply_of m.old (Event.Submit w) }
{
    let x = read_worker(m, w);
    refuse_submit(m, w, x)?;
    let d = build_of(x);
    put_worker(m, w, Worker::Working(Own::Operation(d), d, Place::BackBody));
    Ok(Answer::Ok)
}

#[tactic(auto, unfolding(crate::specs::Apply::apply_of, events::specs::Refusal::refusal_of))]
fn apply_discard(m: &mut Memory, w: u64) -> Result<Answer, Refusal>
    ensures { left m.new (answer result) ≡ apply_of m.old (Event.Discard w) }
{
    refuse_discard(m, w, read_worker(m, w))?;
    put_worker(m, w, Worker::Idle);
    Ok(Answer::Ok)
}

#[tactic(auto, unfolding(crate::specs::Apply::apply_of, events::specs::Refusal::refusal_of))]
fn apply_read(m: &mut Memory, w: u64, a: u64) -> Result<Answer, Refusal>
    ensures { left m.new (answer result) ≡ apply_of m.old (Event.Read w a) }
{
    refuse_read(m, w, read_worker(m, w), a)?;
    put_worker(m, w, Worker::Reading(a));
    Ok(Answer::Ok)
}

#[tactic(auto, unfolding(crate::specs::Apply::apply_of, events::specs::Refusal::refusal_of))]
fn apply_step(m: &mut Memory, w: u64) -> Result<Answer, Refusal>
    ensures { left m.new (answer result) ≡ apply_of m.old (Event.Step w) }
{
    let r = read_row(m, w);
    refuse_step(m, w, worker_of(r))?;
    Ok(step(m, w, r))
}

// The three write-backs are a function each: one for all, with the write-back as a closure, would be no plainer.
#[tactic(auto, unfolding(crate::specs::Apply::apply_of, events::specs::Refusal::refusal_of))]
fn apply_back_word(m: &mut Memory, a: u64) -> Result<Answer, Refusal>
    ensures { left m.new (answer result) ≡ apply_of m.old (Event.BackWord a) }
{
    refuse_word(m, a)?;
    back_word(m, a);
    Ok(Answer::Ok)
}

#[tactic(auto, unfolding(crate::specs::Apply::apply_of, events::specs::Refusal::refusal_of))]
fn apply_back_status(m: &mut Memory, d: u64) -> Result<Answer, Refusal>
    ensures { left m.new (answer result) ≡ apply_of m.old (Event.BackStatus d) }
{
    refuse_descriptor(m, d)?;
    back_status(m, d);
    Ok(Answer::Ok)
}

#[tactic(auto, unfolding(crate::specs::Apply::apply_of, events::specs::Refusal::refusal_of))]
fn apply_back_body(m: &mut Memory, d: u64) -> Result<Answer, Refusal>
    ensures { left m.new (answer result) ≡ apply_of m.old (Event.BackBody d) }
{
    refuse_descriptor(m, d)?;
    back_body(m, d);
    Ok(Answer::Ok)
}

#[tactic(auto, unfolding(crate::specs::Apply::apply_of, events::specs::Refusal::refusal_of, events::specs::Refusal::first_of))]
fn apply_crash(m: &mut Memory) -> Result<Answer, Refusal>
    ensures { left m.new (answer result) ≡ apply_of m.old Event.Crash }
{
    crash(m);
    Ok(Answer::Ok)
}

#[tactic(auto, unfolding(crate::specs::Apply::apply_of, events::specs::Refusal::refusal_of))]
fn apply_recover(m: &mut Memory) -> Result<Answer, Refusal>
    ensures { left m.new (answer result) ≡ apply_of m.old Event.Recover }
{
    let p = read_recovery(m);
    refuse_recover(p)?;
    Ok(recover(m, read_sizes(m).k, p))
}

// The answer of an attempt; a refusal is an answer too. Called for each kind of event, so that each answer is made in its place: around
// the whole choice an event takes 12 instructions more (420 and 407 of `tick`'s a record, when that was tried).
fn told(r: Result<Answer, Refusal>) -> Answer
    ensures { result ≡ answer r }
{
    r.unwrap_or_else(Answer::from)
}

// One event of a schedule, on any block. A match, and no closures: each event has what its function takes.
pub fn apply(m: &mut Memory, e: Event) -> Answer
    ensures { left m.new result ≡ apply_of m.old e }
{
    match e {
        Event::Open(w) => told(apply_open(m, w)),
        Event::Add(w, address, expected, desired) => told(apply_add(
            m,
            w,
            Entry {
                address,
                expected,
                desired,
            },
        )),
        Event::Remove(w, a) => told(apply_remove(m, w, a)),
        Event::Submit(w) => told(apply_submit(m, w)),
        Event::Discard(w) => told(apply_discard(m, w)),
        Event::Read(w, a) => told(apply_read(m, w, a)),
        Event::Step(w) => told(apply_step(m, w)),
        Event::BackWord(a) => told(apply_back_word(m, a)),
        Event::BackStatus(d) => told(apply_back_status(m, d)),
        Event::BackBody(d) => told(apply_back_body(m, d)),
        Event::Crash => told(apply_crash(m)),
        Event::Recover => told(apply_recover(m)),
    }
}

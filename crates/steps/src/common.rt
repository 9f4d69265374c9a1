// What the plans share, and the read.
ghost use Rattle.std.specs.Prelude.{◌≡◌};
ghost use Rattle.steps.specs.Plan as P;

use crate::{Effect, Entry, Next, Place, Plan, ReadNext};
use word::{Outcome, Sort, Status};

// A pointer to d, dirty or clean.
pub(crate) fn points_to(s: Sort, d: u64) -> bool
    ensures { result ≡ P.points_to s d }
{
    matches!(s, Sort::Pointer(e, _) if e == d)
}

// The outcome that a status holds; Failed where it holds none.
pub(crate) fn outcome_of(s: Status) -> Outcome
    ensures { result ≡ P.outcome_of s }
{
    match s {
        Status::Decided(o, _) => o,
        _ => Outcome::Failed,
    }
}

// The value that an operation of this status leaves at an entry.
pub fn left_value(s: Status, e: Entry) -> u64
    ensures { result ≡ P.left_value s e }
{
    match outcome_of(s) {
        Outcome::Succeeded => e.desired,
        Outcome::Failed => e.expected,
    }
}

// A store of a word where a test holds.
pub(crate) fn store_if(t: bool, a: u64, s: Sort) -> Effect
    ensures { result ≡ P.store_if t a s }
{
    if t {
        Effect::StoreWord(a, s)
    } else {
        Effect::Nothing
    }
}

pub(crate) fn plan<N>(effect: Effect, next: N) -> Plan<N>
    ensures { result ≡ P.planned effect next }
{
    Plan { effect, next }
}

// The same for a step of an operation. Not generic: that a generic function asks nothing of its caller is no theorem that can be
// stated of its contract, and of this one it is (`promises`).
pub fn planned(effect: Effect, next: Next) -> Plan<Next>
    ensures { result ≡ P.planned effect next }
{
    plan(effect, next)
}

pub fn goes(effect: Effect, p: Place) -> Plan<Next>
    ensures { result ≡ P.planned effect (Next.Go p) }
{
    planned(effect, Next::Go(p))
}

// The read's first step, from the word at its address.
pub fn read_plan(a: u64, s: Sort) -> Plan<ReadNext>
    ensures { result ≡ P.read_plan a s }
{
    match s {
        Sort::Plain(v, true) => plan(Effect::BackWord(a), ReadNext::Clear(v)),
        Sort::Plain(v, false) => plan(Effect::Nothing, ReadNext::Value(v)),
        Sort::Pointer(e, _) => plan(Effect::Nothing, ReadNext::Meet(e)),
        Sort::Neither(_) => plan(Effect::Nothing, ReadNext::Value(0)),
    }
}

// The read's clearing step: v is the value first seen.
pub fn read_clear_plan(a: u64, v: u64, s: Sort) -> Plan<ReadNext>
    ensures { result ≡ P.read_clear_plan a v s }
{
    let effect = store_if(s == Sort::Plain(v, true), a, Sort::Plain(v, false));
    plan(effect, ReadNext::Value(v))
}

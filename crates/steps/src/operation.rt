// The steps of an operation d.
ghost use Rattle.std.specs.Prelude.{◌≡◌};
ghost use Rattle.steps.specs.Plan as P;
ghost use Rattle.steps.specs.Operation as O;

use crate::common::{goes, left_value, outcome_of, planned, points_to, store_if};
use crate::{Effect, Next, Place, Plan, Seen};
use word::{Outcome, Sort, Status, status_cleared};

// The entry after i, of so many.
#[tactic(auto, unfolding(crate::specs::Operation::more_of))]
fn more_of(i: u64, count: u64) -> Option<u64>
    ensures { result ≡ O.more_of i count }
{
    i.checked_add(1).filter(|j| *j < count)
}

// After an entry of 2: the next entry, or step 3.
fn installed(k: Option<u64>) -> Next
    ensures { result ≡ O.installed k }
{
    Next::Go(k.map_or(Place::Persist(0), Place::Install))
}

// 2, d undecided, by the word of the entry.
fn install_word(i: u64, d: u64, s: Seen) -> Plan<Next>
    ensures { result ≡ O.install_word i d s s.word }
{
    let e = s.entry;
    match s.word {
        Sort::Plain(v, true) => goes(Effect::BackWord(e.address), Place::InstallClear(i, v)),
        Sort::Plain(v, false) if v == e.expected => planned(
            Effect::StoreWord(e.address, Sort::Pointer(d, true)),
            installed(more_of(i, s.count)),
        ),
        Sort::Pointer(f, _) if f == d => planned(Effect::Nothing, installed(more_of(i, s.count))),
        Sort::Pointer(f, _) => planned(Effect::Nothing, Next::Help(f)),
        _ => goes(Effect::Nothing, Place::Decide(Outcome::Failed)),
    }
}

// 2. Install entry i.
#[tactic(auto, unfolding(crate::specs::Operation::install))]
pub fn install(i: u64, d: u64, s: Seen) -> Plan<Next>
    ensures { result ≡ O.install i d s }
{
    if s.status != Status::Undecided {
        return goes(Effect::Nothing, Place::Settle);
    }
    install_word(i, d, s)
}

// 2, the clearing step: v was written back.
#[tactic(auto, unfolding(crate::specs::Operation::install_clear))]
pub fn install_clear(i: u64, v: u64, s: Seen) -> Plan<Next>
    ensures { result ≡ O.install_clear i v s }
{
    let dirty = s.word == Sort::Plain(v, true);
    goes(
        store_if(dirty, s.entry.address, Sort::Plain(v, false)),
        Place::Install(i),
    )
}

// After an entry of 3: the next entry, or step 4 with Succeeded.
fn persisted(k: Option<u64>) -> Next
    ensures { result ≡ O.persisted k }
{
    Next::Go(k.map_or(Place::Decide(Outcome::Succeeded), Place::Persist))
}

// 3, the clearing step.
#[tactic(auto, unfolding(crate::specs::Operation::persist_clear))]
pub fn persist_clear(i: u64, d: u64, s: Seen) -> Plan<Next>
    ensures { result ≡ O.persist_clear i d s }
{
    let dirty = s.word == Sort::Pointer(d, true);
    planned(
        store_if(dirty, s.entry.address, Sort::Pointer(d, false)),
        persisted(more_of(i, s.count)),
    )
}

// 4. Decide.
pub fn decide(o: Outcome, t: Status) -> Plan<Next>
    ensures { result ≡ O.decide o t }
{
    if t != Status::Undecided {
        return goes(Effect::Nothing, Place::Settle);
    }
    goes(Effect::StoreStatus(Status::Decided(o, true)), Place::Settle)
}

// 5. Write the dirty status back.
pub fn settle(t: Status) -> Plan<Next>
    ensures { result ≡ O.settle t }
{
    if matches!(t, Status::Decided(_, true)) {
        return goes(Effect::BackStatus, Place::SettleClear);
    }
    goes(Effect::Nothing, Place::Swap(0))
}

// 5, the clearing step.
pub fn settle_clear(t: Status) -> Plan<Next>
    ensures { result ≡ O.settle_clear t }
{
    goes(Effect::StoreStatus(status_cleared(t)), Place::Swap(0))
}

// 6. Swap entry i.
#[tactic(auto, unfolding(crate::specs::Operation::swap))]
pub fn swap(i: u64, d: u64, s: Seen) -> Plan<Next>
    ensures { result ≡ O.swap i d s }
{
    let v = left_value(s.status, s.entry);
    goes(
        store_if(points_to(s.word, d), s.entry.address, Sort::Plain(v, true)),
        Place::SwapBack(i),
    )
}

// After an entry of 6: the next entry, or step 7 for the owner; a helper is done.
fn swapped(owner: bool, k: Option<u64>) -> Next
    ensures { result ≡ O.swapped owner k }
{
    match k {
        Some(j) => Next::Go(Place::Swap(j)),
        None if owner => Next::Go(Place::StoreFree),
        None => Next::Over,
    }
}

// 6, the clearing step.
#[tactic(auto, unfolding(crate::specs::Operation::swap_clear))]
pub fn swap_clear(i: u64, s: Seen, owner: bool) -> Plan<Next>
    ensures { result ≡ O.swap_clear i s owner }
{
    let v = left_value(s.status, s.entry);
    let dirty = s.word == Sort::Plain(v, true);
    planned(
        store_if(dirty, s.entry.address, Sort::Plain(v, false)),
        swapped(owner, more_of(i, s.count)),
    )
}

// 7. Store Free, or wait while another worker is on d.
pub fn store_free(busy: bool, t: Status) -> Plan<Next>
    ensures { result ≡ O.store_free busy t }
{
    if busy {
        return planned(Effect::Nothing, Next::Wait);
    }
    goes(
        Effect::StoreStatus(Status::Free),
        Place::BackFree(outcome_of(t)),
    )
}

// The refusals 4 to 17: each function is one table of document 01, its conditions in the order of the table, a line each, also those that several
// tables begin with. The block, the worker's number and the worker are three parameters, as their promises have it.
ghost use Rattle.std.specs.Prelude.{◌≡◌, true, false, [], ◌∷◌, MatchResult};
ghost use Rattle.events.specs.Refusal as R;
ghost use Rattle.events.specs.Build as B;

use crate::Refusal;
use memory::{Copy, Memory, find_entry, read_count, read_recovery, read_sizes, read_worker};
use steps::{Entry, RecoveryPlace, Worker};

// The descriptor that a worker builds. 0 and no Option where there is none: the tables look at that descriptor then (`add_checks`).
pub fn build_of(x: Worker) -> u64
    ensures { result ≡ B.build_of x }
{
    match x {
        Worker::Building(d) => d,
        _ => 0,
    }
}

// This refusal, if its condition holds.
fn refuse_if(holds: bool, r: Refusal) -> Result<(), Refusal>
    ensures { MatchResult result (λ _. holds ≡ false) (λ e. (holds ≡ true) × (e ≡ r)) }
{
    if holds { Err(r) } else { Ok(()) }
}

fn no_worker(m: &Memory, w: u64) -> bool
    ensures { result ≡ (R.no_worker m.now w).holds }
{
    read_sizes(m).w <= w
}

fn in_recovery(p: RecoveryPlace) -> bool
    ensures { result ≡ R.is_recovering p }
{
    p != RecoveryPlace::Outside
}

fn is_building(x: Worker) -> bool
    ensures { result ≡ R.is_building x }
{
    matches!(x, Worker::Building(_))
}

fn no_address(m: &Memory, a: u64) -> bool
    ensures { result ≡ (R.no_address m.now a).holds }
{
    read_sizes(m).n <= a
}

fn too_large(e: Entry) -> bool
    ensures { result ≡ (R.too_large e).holds }
{
    1 << 61 <= e.expected || 1 << 61 <= e.desired
}

#[tactic(auto, unfolding(crate::specs::Refusal::first_of))]
pub fn refuse_open(m: &Memory, w: u64, x: Worker, f: Option<u64>) -> Result<(), Refusal>
    ensures { R.refused result ≡ R.first_of (R.open_checks m.now w x f) }
{
    refuse_if(no_worker(m, w), Refusal::NoWorker)?;
    refuse_if(in_recovery(read_recovery(m)), Refusal::InRecovery)?;
    refuse_if(x != Worker::Idle, Refusal::OwnsSomething)?;
    refuse_if(f.is_none(), Refusal::NoneQualifies)
}

#[tactic(auto, unfolding(crate::specs::Refusal::first_of))]
pub fn refuse_add(m: &Memory, w: u64, x: Worker, e: Entry) -> Result<(), Refusal>
    ensures { R.refused result ≡ R.first_of (R.add_checks m.now w x e) }
{
    refuse_if(no_worker(m, w), Refusal::NoWorker)?;
    refuse_if(in_recovery(read_recovery(m)), Refusal::InRecovery)?;
    refuse_if(!is_building(x), Refusal::NotBuilding)?;
    refuse_if(no_address(m, e.address), Refusal::NoAddress)?;
    refuse_if(too_large(e), Refusal::TooLarge)?;
    let d = build_of(x);
    let f = find_entry(m, Copy::Cached, d, e.address);
    refuse_if(f.is_some(), Refusal::AlreadyAdded)?;
    refuse_if(4 <= read_count(m, Copy::Cached, d), Refusal::FifthWord)
}

#[tactic(auto, unfolding(crate::specs::Refusal::first_of))]
pub fn refuse_remove(m: &Memory, w: u64, x: Worker, a: u64, f: Option<u64>) -> Result<(), Refusal>
    ensures { R.refused result ≡ R.first_of (R.remove_checks m.now w x a f) }
{
    refuse_if(no_worker(m, w), Refusal::NoWorker)?;
    refuse_if(in_recovery(read_recovery(m)), Refusal::InRecovery)?;
    refuse_if(!is_building(x), Refusal::NotBuilding)?;
    refuse_if(no_address(m, a), Refusal::NoAddress)?;
    refuse_if(f.is_none(), Refusal::NotThere)
}

#[tactic(auto, unfolding(crate::specs::Refusal::first_of))]
pub fn refuse_submit(m: &Memory, w: u64, x: Worker) -> Result<(), Refusal>
    ensures { R.refused result ≡ R.first_of (R.submit_checks m.now w x) }
{
    refuse_if(no_worker(m, w), Refusal::NoWorker)?;
    refuse_if(in_recovery(read_recovery(m)), Refusal::InRecovery)?;
    refuse_if(!is_building(x), Refusal::NotBuilding)?;
    let n = read_count(m, Copy::Cached, build_of(x));
    refuse_if(n == 0, Refusal::CountZero)
}

#[tactic(auto, unfolding(crate::specs::Refusal::first_of))]
pub fn refuse_discard(m: &Memory, w: u64, x: Worker) -> Result<(), Refusal>
    ensures { R.refused result ≡ R.first_of (R.discard_checks m.now w x) }
{
    refuse_if(no_worker(m, w), Refusal::NoWorker)?;
    refuse_if(in_recovery(read_recovery(m)), Refusal::InRecovery)?;
    refuse_if(!is_building(x), Refusal::NotBuilding)
}

#[tactic(auto, unfolding(crate::specs::Refusal::first_of))]
pub fn refuse_read(m: &Memory, w: u64, x: Worker, a: u64) -> Result<(), Refusal>
    ensures { R.refused result ≡ R.first_of (R.read_checks m.now w x a) }
{
    refuse_if(no_worker(m, w), Refusal::NoWorker)?;
    refuse_if(in_recovery(read_recovery(m)), Refusal::InRecovery)?;
    refuse_if(x != Worker::Idle, Refusal::OwnsSomething)?;
    refuse_if(no_address(m, a), Refusal::NoAddress)
}

#[tactic(auto, unfolding(crate::specs::Refusal::first_of))]
pub fn refuse_step(m: &Memory, w: u64, x: Worker) -> Result<(), Refusal>
    ensures { R.refused result ≡ R.first_of (R.step_checks m.now w x) }
{
    refuse_if(no_worker(m, w), Refusal::NoWorker)?;
    refuse_if(in_recovery(read_recovery(m)), Refusal::InRecovery)?;
    refuse_if(x == Worker::Idle || is_building(x), Refusal::RunsNothing)
}

#[tactic(auto, unfolding(crate::specs::Refusal::first_of))]
pub fn refuse_word(m: &Memory, a: u64) -> Result<(), Refusal>
    ensures { R.refused result ≡ R.first_of (R.no_address m.now a ∷ []) }
{
    refuse_if(no_address(m, a), Refusal::NoAddress)
}

#[tactic(auto, unfolding(crate::specs::Refusal::first_of))]
pub fn refuse_descriptor(m: &Memory, d: u64) -> Result<(), Refusal>
    ensures { R.refused result ≡ R.first_of (R.no_descriptor m.now d ∷ []) }
{
    refuse_if(read_sizes(m).k <= d, Refusal::NoDescriptor)
}

#[tactic(auto, unfolding(crate::specs::Refusal::first_of))]
pub fn refuse_recover(p: RecoveryPlace) -> Result<(), Refusal>
    ensures { R.refused result ≡ R.first_of (R.outside_recovery p ∷ []) }
{
    refuse_if(!in_recovery(p), Refusal::OutsideRecovery)
}

// Records 0B and 0C: the crash, and one step of recovery.
ghost use Rattle.std.specs.Prelude.{◌≡◌};
ghost use Rattle.machine.specs.Recover as R;
ghost use Rattle.events.specs.Left.{left};

use crate::work::{look, perform};
use events::{Answer, Refusal};
use memory::{Copy, Memory, crash_copy, idle_workers, put_recovery};
use steps::{RecoveryPlace, recovery_plan};

#[tactic(auto, unfolding(crate::specs::Recover::crashed))]
pub(crate) fn crash(m: &mut Memory)
    ensures { m.new ≡ R.crashed m.old }
{
    crash_copy(m);
    idle_workers(m);
    put_recovery(m, RecoveryPlace::At(0, 0));
}

// The descriptor after d, of k.
#[tactic(auto, unfolding(crate::specs::Recover::visit_after))]
fn visit_after(d: u64, k: u64) -> RecoveryPlace
    ensures { result ≡ R.visit_after d k }
{
    if d < k && d + 1 < k {
        return RecoveryPlace::At(d + 1, 0);
    }
    RecoveryPlace::Outside
}

// Where recovery stands after a step at d, of k descriptors.
fn place_after(k: u64, d: u64, n: Option<u64>) -> RecoveryPlace
    ensures { result ≡ R.place_after k d n }
{
    match n {
        Some(s) => RecoveryPlace::At(d, s),
        None => visit_after(d, k),
    }
}

fn recovery_answer(p: RecoveryPlace) -> Answer
    ensures { result ≡ R.recovery_answer p }
{
    match p {
        RecoveryPlace::Outside => Answer::Recovered,
        RecoveryPlace::At(_, _) => Answer::Recovering,
    }
}

#[tactic(auto, unfolding(crate::specs::Recover::recovery_step_at, crate::specs::Recover::recovery_plan_at))]
fn recovery_step(m: &mut Memory, k: u64, d: u64, s: u64) -> Answer
    ensures { left m.new result ≡ R.recovery_step_at m.old k d s }
{
    let seen = look(m, Copy::Persisted, d, s / 2);
    let q = recovery_plan(d, s, seen);
    perform::<false>(m, d, q.effect);
    let p = place_after(k, d, q.next);
    put_recovery(m, p);
    recovery_answer(p)
}

// One step of recovery, of k descriptors, from place p.
pub(crate) fn recover(m: &mut Memory, k: u64, p: RecoveryPlace) -> Answer
    ensures { left m.new result ≡ R.recover_of m.old k p }
{
    match p {
        RecoveryPlace::Outside => Answer::from(Refusal::OutsideRecovery),
        RecoveryPlace::At(d, s) => recovery_step(m, k, d, s),
    }
}

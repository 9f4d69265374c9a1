// One step of recovery at a descriptor d.
ghost use Rattle.std.specs.Prelude.{◌≡◌, ◌<◌};
ghost use Rattle.steps.specs.Recovery as R;

use crate::common::{left_value, plan, points_to, store_if};
use crate::{Effect, Plan, Seen};
use word::{Sort, Status};

// The two steps of an entry: its word, by the persisted status; its write-back.
#[tactic(auto, unfolding(crate::specs::Recovery::entry_step))]
fn entry_step(d: u64, done: u64, s: Seen) -> Plan<Option<u64>>
    requires { done < 8 }
    ensures { result ≡ R.entry_step d done s }
{
    let e = s.entry;
    let next = Some(done + 1);
    if done % 2 == 0 {
        let v = left_value(s.status, e);
        return plan(
            store_if(points_to(s.word, d), e.address, Sort::Plain(v, false)),
            next,
        );
    }
    plan(Effect::BackWord(e.address), next)
}

// After the entries: store Free, then write back the status.
#[tactic(auto, unfolding(crate::specs::Recovery::end_step))]
fn end_step(done: u64) -> Plan<Option<u64>>
    ensures { result ≡ R.end_step done }
{
    if done % 2 == 0 {
        return plan(Effect::StoreStatus(Status::Free), Some(done + 1));
    }
    plan(Effect::BackStatus, None)
}

// A live descriptor, `done` of its steps done.
#[tactic(auto, unfolding(crate::specs::Recovery::live_step))]
fn live_step(d: u64, done: u64, s: Seen) -> Plan<Option<u64>>
    ensures { result ≡ R.live_step d done s }
{
    if done < 8 && done / 2 < s.count {
        return entry_step(d, done, s);
    }
    end_step(done)
}

// One step of recovery at descriptor d, `done` of its steps done; None after its last. A Free descriptor takes one step.
#[tactic(auto, unfolding(crate::specs::Recovery::recovery_plan))]
pub fn recovery_plan(d: u64, done: u64, s: Seen) -> Plan<Option<u64>>
    ensures { result ≡ R.recovery_plan d done s }
{
    if done == 0 && s.status == Status::Free {
        return plan(Effect::Nothing, None);
    }
    live_step(d, done, s)
}

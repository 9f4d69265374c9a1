// Checks 21 and 22 of a descriptor, by its 112 bytes.
ghost use Rattle.std.specs.Prelude.{◌≡◌, ◌<◌, ◌≤◌};
ghost use Rattle.steps.specs.Plan.{is_free};
ghost use Rattle.image.specs.Layout as L;
ghost use Rattle.image.specs.Check as C;

use crate::layout::{count_in, entry_in, status_in};
use steps::Entry;
use word::Status;

// 21.
pub(crate) fn status_bad(part: &[u8]) -> bool
    ensures { result ≡ C.bad_status part.now }
{
    matches!(status_in(part), Status::Bad(_))
}

// A value is below this.
const VALUES: u64 = 1 << 61;

#[tactic(auto, unfolding(crate::specs::Check::bad_entry))]
fn entry_bad(n: u64, e: Entry) -> bool
    ensures { result ≡ C.bad_entry n e }
{
    n <= e.address || VALUES <= e.expected || VALUES <= e.desired
}

// Entry i, and its address against the one before it.
#[tactic(auto, unfolding(crate::specs::Check::bad_at))]
fn bad_at(n: u64, part: &[u8], i: u64) -> bool
    requires { i < 4 }
    ensures { result ≡ C.bad_at n part.now i }
{
    let e = entry_in(part, i);
    entry_bad(n, e) || i != 0 && e.address <= entry_in(part, i - 1).address
}

fn entries_bad(n: u64, part: &[u8], count: u64) -> bool
    requires { count ≤ 4 }
    ensures { result ≡ C.some_below count (λ i. C.bad_at n part.now i) }
{
    (0..count).any(|i| bad_at(n, part, i))
}

pub(crate) fn is_free(part: &[u8]) -> bool
    ensures { result ≡ is_free (L.status_in part.now) }
{
    matches!(status_in(part), Status::Free)
}

// 22. A Free body and entries past the count are not looked at.
#[tactic(auto, unfolding(crate::specs::Check::bad_body))]
pub(crate) fn body_bad(n: u64, part: &[u8]) -> bool
    ensures { result ≡ C.bad_body n part.now }
{
    if is_free(part) {
        return false;
    }
    let count = count_in(part);
    // No range pattern here: by one, a whole recovery takes 673 ns in place of 520, and was to take no more than 616.
    if count < 1 || 4 < count {
        return true;
    }
    entries_bad(n, part, count)
}

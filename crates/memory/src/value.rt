// The value of a word.
ghost use Rattle.std.specs.Prelude.{◌≡◌};
ghost use Rattle.memory.specs.Value.{is_success, succeeded, entry_value, pointer_value, value_of};

use crate::bodies::{find_entry, read_entry};
use crate::words::{read_status, read_word};
use crate::{Copy, Memory};
use steps::Entry;
use word::{Outcome, Sort, Status};

// Succeeded, dirty or not.
fn has_succeeded(s: Status) -> bool
    ensures { result ≡ succeeded s }
{
    matches!(s, Status::Decided(Outcome::Succeeded, _))
}

// The same as step 6 leaves (`steps::left_value`). By itself: the value of a word is a definition of its own, and an edit is about it.
fn entry_value(s: Status, e: Entry) -> u64
    ensures { result ≡ entry_value s e }
{
    if has_succeeded(s) {
        return e.desired;
    }
    e.expected
}

fn pointer_value(m: &Memory, d: u64, a: u64) -> u64
    ensures { result ≡ pointer_value m.now d a }
{
    find_entry(m, Copy::Persisted, d, a).map_or(0, |i| {
        let s = read_status(m, Copy::Persisted, d);
        entry_value(s, read_entry(m, Copy::Persisted, d, i))
    })
}

// The value of the word at an address, from persisted copies only.
#[tactic(auto, unfolding(crate::specs::Value::value_of))]
pub fn value_of(m: &Memory, a: u64) -> u64
    ensures { result ≡ value_of m.now a }
{
    match read_word(m, Copy::Persisted, a) {
        Sort::Plain(v, _) => v,
        Sort::Pointer(d, _) => pointer_value(m, d, a),
        Sort::Neither(_) => 0,
    }
}

// Words and statuses: a copy of one, a store to the cached copy, the write-back of one. Not one generic function
// for both: the six would stand over it all the same, since it is said of each that it asks nothing of its caller (`promises`).
ghost use Rattle.std.specs.Prelude.{◌≡◌};
ghost use Rattle.memory.specs.Content.{word_in, put_word, back_word, status_in, put_status, back_status};

use crate::block::{copy_number, load, save, status_slot, word_slot};
use crate::{Copy, Memory};
use word::{Sort, Status, sort_of, status_number, status_of, word_number};

pub fn read_word(m: &Memory, c: Copy, a: u64) -> Sort
    ensures { result ≡ word_in c m.now a }
{
    let i = word_slot(c, a);
    sort_of(load(m, i))
}

pub fn put_word(m: &mut Memory, a: u64, s: Sort)
    ensures { m.new ≡ put_word m.old a s }
{
    let i = word_slot(Copy::Cached, a);
    let x = word_number(s);
    save(m, i, x);
}

pub fn back_word(m: &mut Memory, a: u64)
    ensures { m.new ≡ back_word m.old a }
{
    let from = word_slot(Copy::Cached, a);
    let to = word_slot(Copy::Persisted, a);
    copy_number(m, from, to);
}

pub fn read_status(m: &Memory, c: Copy, d: u64) -> Status
    ensures { result ≡ status_in c m.now d }
{
    let i = status_slot(c, d);
    status_of(load(m, i))
}

pub fn put_status(m: &mut Memory, d: u64, s: Status)
    ensures { m.new ≡ put_status m.old d s }
{
    let i = status_slot(Copy::Cached, d);
    let x = status_number(s);
    save(m, i, x);
}

pub fn back_status(m: &mut Memory, d: u64)
    ensures { m.new ≡ back_status m.old d }
{
    let from = status_slot(Copy::Cached, d);
    let to = status_slot(Copy::Persisted, d);
    copy_number(m, from, to);
}

// The input of a program in pieces: what has been read and not used yet is kept at the start of a buffer, which the caller lends, with
// how many bytes are kept beside it: that is what is promised of both functions.
#![tactic(auto)]

ghost use Rattle.std.specs.Prelude.{◌≡◌, ◌+◌, ◌≤◌, length, take};
ghost use Rattle.feed.specs.Feed.{Kept, kept, kept_of};

use std::io::Read;

// One read of the input, behind the bytes that are kept; how many bytes there are then. As many as before: the input has ended, or
// the read failed, or the buffer is full.
pub fn read_on(input: &mut impl Read, buf: &mut [u8], have: usize) -> usize
    ensures what_was_kept { (length buf.new ≡ length buf.old) × ((result ≤ length buf.new) × (take have buf.new ≡ take have buf.old)) }
    ensures no_fewer { have ≤ length buf.old → have ≤ result }
    ensures full { length buf.old ≤ have → result ≡ length buf.old }
{
    if buf.len() <= have {
        return buf.len();
    }
    have + input.read(&mut buf[have..]).unwrap_or(0)
}

// The bytes from a place up to another go to the start; how many there are.
#[tactic(auto, unfolding(crate::specs::Feed::kept_of))]
pub fn keep(buf: &mut [u8], from: usize, to: usize) -> usize
    ensures moved { kept buf.new result ≡ kept_of buf.old from to }
    ensures inside { result ≤ length buf.old }
{
    if buf.len() < to || to <= from {
        return 0;
    }
    buf.copy_within(from..to, 0);
    to - from
}

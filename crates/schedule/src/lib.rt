// Schedule records: one byte of kind, then a body whose length the kind fixes (document 01, "Schedule records").
#![tactic(auto)]

ghost use Rattle.std.specs.Prelude.{◌≡◌, ◌≤◌};
ghost use Rattle.events.specs.Event.{kind_of};
ghost use Rattle.events.specs.Refusal.{first_of};
ghost use Rattle.schedule.specs.Record.{known, length_of, head_of, refusal_of, head_checks, body_of};
ghost use Rattle.schedule.specs.Content.{byte, event_of, setup_of};

use events::Event;
use little::read_u64;
use memory::Sizes;

// No Result: that the input ends there, or inside of a record, is no refusal yet. What stands at a place of the input: a record, with its kind and its body's length; a kind that is unknown there
// (refusal 3); a record that the input ends inside of (refusal 2); nothing more.
#[derive(Clone, Copy, PartialEq, Eq, Debug)]
pub enum Head {
    // The kind is a byte, and no enum: `body_at` and `event_of` take any byte.
    Record(u8, usize),
    Unknown,
    Short,
    End,
}

// The length of a body of each kind, 00 to 0C: a number has one byte there, but expected and desired of 02 have eight.
const LENGTHS: [usize; 13] = [3, 1, 18, 2, 1, 1, 2, 1, 1, 1, 1, 0, 0];

// A kind that there is not has no body.
#[tactic(auto, unfolding(crate::specs::Record::length_of))]
fn length_of(kind: u8) -> usize
    ensures { result ≡ length_of kind }
{
    LENGTHS.get(usize::from(kind)).copied().unwrap_or(0)
}

// `started`: the setup has been read.
#[tactic(auto, unfolding(crate::specs::Record::known))]
fn is_known(kind: u8, started: bool) -> bool
    ensures { result ≡ known started kind }
{
    if started {
        matches!(kind, 0x01..=0x0C)
    } else {
        kind == 0x00
    }
}

// Refusal 3 comes before 2: an unknown kind is unknown even where the input ends inside its body.
pub fn head_at(s: &[u8], at: usize, started: bool) -> Head
    ensures { (result ≡ head_of started s.now at) × (refusal_of result ≡ first_of (head_checks started s.now at)) }
{
    let Some(&kind) = s.get(at) else {
        return Head::End;
    };
    let n = length_of(kind);
    if !is_known(kind, started) {
        return Head::Unknown;
    }
    if s.len() - (at + 1) < n {
        return Head::Short;
    }
    Head::Record(kind, n)
}

// The body of a record: the caller's own bytes, as many as the kind fixes; none where they are not all there.
#[tactic(auto, using(crate::proofs::CodeLaws::body_cut, crate::proofs::CodeLaws::body_whole))]
pub fn body_at(s: &[u8], at: usize, kind: u8) -> &[u8]
    ensures { result.now ≡ body_of s.now at kind }
{
    let n = length_of(kind);
    if s.len() <= at || s.len() - (at + 1) < n {
        return &[];
    }
    let from = at + 1;
    &s[from..from + n]
}

// A number of one byte; 0 past the end.
fn byte_at(body: &[u8], i: usize) -> u64
    ensures { result ≡ byte body.now i }
{
    body.get(i).map_or(0, |b| u64::from(*b))
}

// The event of a record of kind 01 to 0C: an event of that kind. Any kind that is none of 01 to 0B is taken for 0C, so that the
// last case needs no test.
#[tactic(auto, unfolding(crate::specs::Content::event_of))]
pub fn event_of(kind: u8, body: &[u8]) -> Event
    ensures as_defined { result ≡ event_of kind body.now }
    ensures of_its_kind { 0x01 ≤ kind → kind ≤ 0x0C → kind_of result ≡ kind }
{
    let a = byte_at(body, 0);
    let b = byte_at(body, 1);
    match kind {
        0x01 => Event::Open(a),
        0x02 => Event::Add(a, b, read_u64(body, 2), read_u64(body, 10)),
        0x03 => Event::Remove(a, b),
        0x04 => Event::Submit(a),
        0x05 => Event::Discard(a),
        0x06 => Event::Read(a, b),
        0x07 => Event::Step(a),
        0x08 => Event::BackWord(a),
        0x09 => Event::BackStatus(a),
        0x0A => Event::BackBody(a),
        0x0B => Event::Crash,
        _ => Event::Recover,
    }
}

// n, k, w of a record of kind 00.
pub fn setup_of(body: &[u8]) -> Sizes
    ensures { result ≡ setup_of body.now }
{
    Sizes {
        n: byte_at(body, 0),
        k: byte_at(body, 1),
        w: byte_at(body, 2),
    }
}

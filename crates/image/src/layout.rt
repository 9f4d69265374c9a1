// Where each number of an image stands: n words, then k descriptors of 112 bytes (a status, a count, four entries of three numbers).
ghost use Rattle.std.specs.Prelude.{◌≡◌, false, true, ◌<◌, ◌≤◌, ◌+◌, MatchResult};
ghost use Rattle.image.specs.Layout as L;
ghost use Rattle.image.specs.Check as C;

use crate::refusal::Refusal;
use little::read_u64;
use steps::Entry;
use word::{Sort, Status, sort_of, status_of};

// An image's n and k, once they have passed check 1. The bytes stand beside it, and
// not in it: a check lends them to read and recovery to write, and each function cuts its part of them.
// Compared and shown nowhere, so it derives no more.
#[derive(Clone, Copy)]
pub(crate) struct Sizes {
    pub(crate) words: u64,
    pub(crate) descriptors: u64,
    ghost few_words: { words ≤ 64 },
    ghost few_descriptors: { descriptors ≤ 16 },
    ghost some_descriptor: { 0 < descriptors },
}

impl Sizes {
    // 1.
    pub(crate) fn new(n: u64, k: u64) -> Result<Sizes, Refusal>
        ensures { MatchResult result (λ s. (s.words ≡ n) × ((s.descriptors ≡ k) × (C.bad_sizes n k ≡ false))) (λ r. (r ≡ Refusal.Sizes) × (C.bad_sizes n k ≡ true)) }
    {
        if matches!(n, 1..=64) && matches!(k, 1..=16) {
            Ok(Sizes {
                words: n,
                descriptors: k,
            })
        } else {
            Err(Refusal::Sizes)
        }
    }

    // Where descriptor d begins; where the image ends, for d = k.
    pub(crate) fn place(self, d: u64) -> usize
        requires { d ≤ self.descriptors }
        ensures { result ≡ L.descriptor_place self.words d }
    {
        (8 * self.words + 112 * d) as usize
    }

    // The 112 bytes of descriptor d.
    pub(crate) fn part(self, image: &[u8], d: u64) -> &[u8]
        requires { L.Sized self.words self.descriptors image.now × (d < self.descriptors) }
        ensures { result.now ≡ L.part_of image.now self.words d }
    {
        let from = self.place(d);
        &image[from..from + 112]
    }
}

// The word at a.
pub(crate) fn word_of(image: &[u8], a: u64) -> Sort
    requires { a < 64 }
    ensures { result ≡ L.word_of image.now a }
{
    sort_of(read_u64(image, 8 * a as usize))
}

// In a descriptor's 112 bytes: the status, the count, entry i.
pub(crate) fn status_in(part: &[u8]) -> Status
    ensures { result ≡ L.status_in part.now }
{
    status_of(read_u64(part, 0))
}

pub(crate) fn count_in(part: &[u8]) -> u64
    ensures { result ≡ L.count_in part.now }
{
    read_u64(part, 8)
}

pub(crate) fn entry_in(part: &[u8], i: u64) -> Entry
    requires { i ≤ 4 }
    ensures { result ≡ L.entry_in part.now i }
{
    let at = 24 * i as usize;
    Entry {
        address: read_u64(part, 16 + at),
        expected: read_u64(part, 24 + at),
        desired: read_u64(part, 32 + at),
    }
}

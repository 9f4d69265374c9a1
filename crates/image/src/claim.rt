// Check 24 by descriptors: each live one marks the words that point to it and stand in its entries.
ghost use Rattle.std.specs.Prelude.{◌≡◌, false, ◌<◌, ◌≤◌};
ghost use Rattle.steps.specs.Plan.{points_to};
ghost use Rattle.image.specs.Layout as L;
ghost use Rattle.image.specs.Check as C;
ghost use Rattle.image.specs.Claims as M;

use crate::layout::{Sizes, count_in, entry_in};
use crate::part::is_free;
use little::read_u64;

// `word` keeps its bits to itself.
const DIRTY: u64 = 1 << 63;

const POINTER: u64 = 1 << 62;

// The word at a points to d, dirty or clean. By bits: by its sort, a whole recovery takes 645 ns in place of 520,
// and was to take no more than 616.
#[tactic(auto, using(crate::proofs::ClaimLaws::points_law))]
pub(crate) fn points_to(image: &[u8], a: u64, d: u64) -> bool
    requires { (a < 64) × (d < 16) }
    ensures { result ≡ points_to (L.word_of image.now a) d }
{
    read_u64(image, 8 * a as usize) % DIRTY == POINTER + d
}

// The words that point to d and stand in its entries.
fn mark(image: &[u8], part: &[u8], d: u64, marks: &mut [bool; 64])
    requires { ((d < 16) × (L.count_in part.now ≤ 4)) × ((i : _) → i < L.count_in part.now → (L.entry_in part.now i).address < 64) }
    ensures { M.MarkedBy marks.old marks.new image.now part.now d (L.count_in part.now) }
{
    for i in 0..count_in(part) {
        let a = entry_in(part, i).address;
        if points_to(image, a, d) {
            marks[a as usize] = true;
        }
    }
}

// Of all descriptors, whose bodies have passed check 22.
pub(crate) fn claimed(sizes: Sizes, image: &[u8]) -> [bool; 64]
    requires { L.Sized sizes.words sizes.descriptors image.now × (C.bad_bodies sizes.words sizes.descriptors image.now ≡ false) }
    ensures { M.Marked sizes.words sizes.descriptors image.now result }
{
    let mut marks = [false; 64];
    for d in 0..sizes.descriptors {
        let part = sizes.part(image, d);
        if !is_free(part) {
            mark(image, part, d, &mut marks);
        }
    }
    marks
}

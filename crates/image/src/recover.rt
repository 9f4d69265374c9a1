// Recovery of an image that has passed the checks, descriptor by descriptor, while the allowance lasts.
ghost use Rattle.std.specs.Prelude.{◌≡◌, false, ◌<◌, ◌≤◌, ◌+◌, ◌*◌, ◌^◌, length};
ghost use Rattle.steps.specs.declared.RecoveryPlace.TheVariants.{At};
ghost use Rattle.steps.specs.Plan as P;
ghost use Rattle.image.specs.Layout as L;
ghost use Rattle.image.specs.Check as C;
ghost use Rattle.image.specs.Good as G;
ghost use Rattle.image.specs.Visit as D;
ghost use Rattle.image.specs.Recover as R;

use crate::Recovery;
use crate::claim::points_to;
use crate::layout::{Sizes, count_in, entry_in, status_in};
use little::write_u64;
use steps::left_value;
use word::Status;

// The answers where no check refuses.
const COMPLETE: u64 = 0;

const INCOMPLETE: u64 = 256;

// A word at a that points to d becomes v, not dirty.
#[tactic(auto, unfolding(crate::specs::Visit::replaced))]
fn replace(image: &mut [u8], d: u64, a: u64, v: u64)
    requires { (a < 64) × ((d < 16) × (v < 2 ^ 61)) }
    ensures { image.new ≡ D.replaced image.old d a v }
{
    if points_to(image, a, d) {
        write_u64(image, 8 * a as usize, v);
    }
}

// After the entries: Free, and its write-back, which alters no byte. What they leave of the allowance, if it lasts.
#[tactic(auto, unfolding(crate::specs::Visit::freed))]
fn free(sizes: Sizes, image: &mut [u8], d: u64, allowance: u64) -> Option<u64>
    requires { d < sizes.descriptors }
    ensures { D.visited image.new result ≡ D.freed allowance sizes.words image.old d }
{
    let left = allowance.checked_sub(1)?;
    write_u64(image, sizes.place(d), 0);
    left.checked_sub(1)
}

// A live descriptor: each entry's word and its write-back, then Free and its write-back. The allowance falls with each step.
fn visit_live(sizes: Sizes, image: &mut [u8], d: u64, allowance: u64, status: Status) -> Option<u64>
    requires { L.Sized sizes.words sizes.descriptors image.old × ((d < sizes.descriptors) × ((C.bad_body sizes.words (L.part_of image.old sizes.words d) ≡ false) × ((status ≡ L.status_in (L.part_of image.old sizes.words d)) × (P.is_free status ≡ false)))) }
    ensures { D.visited image.new result ≡ D.visit_from allowance sizes.words image.old d 0 }
{
    let count = count_in(sizes.part(image, d));
    let mut left = allowance;
    for i in 0..count {
        left = left.checked_sub(1)?;
        let e = entry_in(sizes.part(image, d), i);
        replace(image, d, e.address, left_value(status, e));
        left = left.checked_sub(1)?;
    }
    free(sizes, image, d, left)
}

// A Free descriptor takes one step, which alters no byte.
fn visit_any(sizes: Sizes, image: &mut [u8], d: u64, allowance: u64) -> Option<u64>
    requires { L.Sized sizes.words sizes.descriptors image.old × ((d < sizes.descriptors) × (C.bad_body sizes.words (L.part_of image.old sizes.words d) ≡ false)) }
    ensures { D.visited image.new result ≡ D.visit_from allowance sizes.words image.old d 0 }
{
    match status_in(sizes.part(image, d)) {
        Status::Free => allowance.checked_sub(1),
        status => visit_live(sizes, image, d, allowance, status),
    }
}

// At most so many steps, from descriptor 0.
pub(crate) fn run(sizes: Sizes, image: &mut [u8], allowance: u64) -> Recovery
    requires { G.Good sizes.words sizes.descriptors image.old }
    ensures { R.recovered image.new result ≡ R.reported (R.run_from allowance sizes.words sizes.descriptors image.old (At 0 0)) }
{
    let mut left = allowance;
    for d in 0..sizes.descriptors {
        let Some(rest) = visit_any(sizes, image, d, left) else {
            return Recovery {
                answer: INCOMPLETE,
                steps: allowance,
            };
        };
        left = rest;
    }
    Recovery {
        answer: COMPLETE,
        steps: allowance - left,
    }
}

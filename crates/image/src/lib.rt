// Recovery of a memory image, for the C runtime (document 01, "Images for the C runtime").
#![tactic(auto)]

mod check;
mod claim;
mod layout;
mod part;
mod recover;
mod refusal;

ghost use Rattle.std.specs.Prelude.{◌≡◌};
ghost use Rattle.image.specs.Recover.{recovered, recover_of};

use crate::check::checked;
use crate::recover::run;

// What the caller is told: 0 complete, 256 incomplete, else the refusal's number; and the steps taken.
// A number, and no enum: the C interface names it so.
#[repr(C)]
#[derive(Clone, Copy, PartialEq, Eq, Debug)]
pub struct Recovery {
    pub answer: u64,
    pub steps: u64,
}

// Every check is over before the first byte is stored: a refused image is untouched.
pub fn pmwcas_recover(n: u64, k: u64, image: &mut [u8], allowance: u64) -> Recovery
    ensures { recovered image.new result ≡ recover_of n k image.old allowance }
{
    match checked(n, k, image) {
        Ok(sizes) => run(sizes, image, allowance),
        Err(refusal) => Recovery {
            answer: u64::from(refusal),
            steps: 0,
        },
    }
}

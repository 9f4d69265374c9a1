// The recovery as C links it: `pmwcas_recover` of the crate image, under its name (document 01, "Images for the C runtime").
#![tactic(auto)]

ghost use Rattle.std.specs.Prelude.{◌≡◌};
ghost use Rattle.image.specs.Recover.{recovered, recover_of};

use image::Recovery;

// Every check is over before the first byte is stored: a refused image is untouched.
#[unsafe(no_mangle)]
pub extern "C" fn pmwcas_recover(n: u64, k: u64, image: &mut [u8], allowance: u64) -> Recovery
    ensures { recovered image.new result ≡ recover_of n k image.old allowance }
{
    image::pmwcas_recover(n, k, image, allowance)
}

// The checks of an image. One pass over the descriptors finds whether 21 or 22 holds, one over the words whether 23 or 24 does; which of the two is looked for
// only then, the earlier one over the whole image first.
ghost use Rattle.std.specs.Prelude.{◌≡◌, ◌<◌, ◌≤◌, IfOk};
ghost use Rattle.image.specs.Layout as L;
ghost use Rattle.image.specs.Check as C;
ghost use Rattle.image.specs.Claims as M;
ghost use Rattle.image.specs.Refusals.{refused};

use crate::claim::claimed;
use crate::layout::{Sizes, word_of};
use crate::part::{body_bad, status_bad};
use crate::refusal::Refusal;
use word::Sort;

// 21, over all descriptors.
fn statuses_bad(sizes: Sizes, image: &[u8]) -> bool
    requires { L.Sized sizes.words sizes.descriptors image.now }
    ensures { result ≡ C.bad_statuses sizes.words sizes.descriptors image.now }
{
    (0..sizes.descriptors).any(|d| status_bad(sizes.part(image, d)))
}

// 21 or 22, over all descriptors.
fn descriptors_bad(sizes: Sizes, image: &[u8]) -> bool
    requires { L.Sized sizes.words sizes.descriptors image.now }
    ensures { result ≡ M.bad_descriptors sizes.words sizes.descriptors image.now }
{
    (0..sizes.descriptors).any(|d| {
        let part = sizes.part(image, d);
        status_bad(part) || body_bad(sizes.words, part)
    })
}

// 23, over all words.
fn words_bad(sizes: Sizes, image: &[u8]) -> bool
    ensures { result ≡ C.bad_words sizes.words image.now }
{
    (0..sizes.words).any(|a| matches!(word_of(image, a), Sort::Neither(_)))
}

fn marked_bad(mark: bool, s: Sort) -> bool
    ensures { result ≡ M.bad_marked mark s }
{
    match s {
        Sort::Plain(_, _) => false,
        Sort::Pointer(_, _) => !mark,
        Sort::Neither(_) => true,
    }
}

// 23 or 24, over all words.
fn marked_words_bad(sizes: Sizes, image: &[u8], marks: &[bool; 64]) -> bool
    ensures { result ≡ M.bad_marked_words sizes.words image.now marks.now }
{
    (0..sizes.words).any(|a| marked_bad(marks[a as usize], word_of(image, a)))
}

// 20 to 24.
#[tactic(auto, using(crate::proofs::ImageLaws::none_refused, crate::proofs::ImageLaws::descriptors_either, crate::proofs::ClaimLaws::marked_words), unfolding(crate::specs::Check::content_refusal, events::specs::Refusal::first_of))]
fn check_content(sizes: Sizes, image: &[u8]) -> Result<(), Refusal>
    ensures { refused result ≡ C.content_refusal sizes.words sizes.descriptors image.now }
{
    if image.len() != sizes.place(sizes.descriptors) {
        return Err(Refusal::Length);
    }
    if descriptors_bad(sizes, image) {
        if statuses_bad(sizes, image) {
            return Err(Refusal::Status);
        }
        return Err(Refusal::Body);
    }
    let marks = claimed(sizes, image);
    if marked_words_bad(sizes, image, &marks) {
        if words_bad(sizes, image) {
            return Err(Refusal::Word);
        }
        return Err(Refusal::Pointer);
    }
    Ok(())
}

// All of them.
#[tactic(auto, unfolding(crate::specs::Check::image_refusal, crate::specs::Check::content_refusal, events::specs::Refusal::first_of))]
pub(crate) fn checked(n: u64, k: u64, image: &[u8]) -> Result<Sizes, Refusal>
    ensures refusal { refused result ≡ C.image_refusal n k image.now }
    ensures sizes { IfOk result (λ s. (s.words ≡ n) × (s.descriptors ≡ k)) }
{
    let sizes = Sizes::new(n, k)?;
    check_content(sizes, image)?;
    Ok(sizes)
}

// Why an image is refused, each with its number (document 01, "Images for the C runtime").
ghost use Rattle.std.specs.Prelude.{◌≡◌};
ghost use Rattle.image.specs.Refusals.{number};

#[derive(Clone, Copy, PartialEq, Eq, Debug)]
pub(crate) enum Refusal {
    Sizes = 1,
    Length = 20,
    Status = 21,
    Body = 22,
    Word = 23,
    Pointer = 24,
}

impl From<Refusal> for u64 {
    ghost from_gives = { λ r n. n ≡ number r };

    fn from(r: Refusal) -> u64 {
        r as u64
    }
}

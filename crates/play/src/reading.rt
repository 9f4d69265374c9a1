// What is told of where reading stands.
ghost use Rattle.std.specs.Prelude.{◌≡◌};
ghost use Rattle.play.specs.Tick.{number_after, number_in, begun_in};
ghost use Rattle.play.specs.Reading.{over_in};

use crate::Stage;

// The number after i; the count stands still at the greatest.
#[tactic(auto, unfolding(crate::specs::Tick::number_after))]
pub(crate) fn number_after(i: u64) -> u64
    ensures { result ≡ number_after i }
{
    i.saturating_add(1)
}

// The number of the record that is to be read.
pub(crate) fn number_in(stage: Stage) -> u64
    ensures { result ≡ number_in stage }
{
    match stage {
        Stage::At(i) => i,
        Stage::First | Stage::Over(_) => 0,
    }
}

// There was a good setup.
pub fn has_begun(stage: Stage) -> bool
    ensures { result ≡ begun_in stage }
{
    match stage {
        Stage::First => false,
        Stage::At(_) => true,
        Stage::Over(good) => good,
    }
}

// A refusal has ended reading.
pub fn is_over(stage: Stage) -> bool
    ensures { result ≡ over_in stage }
{
    matches!(stage, Stage::Over(_))
}

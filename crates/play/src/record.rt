// One record: its line, and where reading stands after it.
ghost use Rattle.std.specs.Prelude.{◌≡◌};
ghost use Rattle.play.specs.Tick as T;
ghost use Rattle.events.specs.Number.{number};
ghost use Rattle.play.specs.Done as D;

use crate::reading::{has_begun, number_after, number_in};
use crate::{Progress, Stage};
use answers::put_line;
use events::{Answer, Refusal};
use machine::apply;
use memory::{Memory, Sizes, fresh};
use schedule::{event_of, setup_of};

// A refusal 1 or 3: its line, and reading is over.
pub(crate) fn refused_turn(m: &Memory, p: &mut Progress, out: &mut [u8], r: Refusal)
    ensures { D.done m.now p.new out.new ≡ D.turned p.old out.old (T.refused_turn m.now p.old.stage (number r)) }
{
    p.written = put_line(out, p.written, number_in(p.stage), Answer::from(r));
    p.stage = Stage::Over(has_begun(p.stage));
}

// The setup; refusal 1 where a number is outside its range.
fn setup_turn(m: &mut Memory, p: &mut Progress, x: Sizes, out: &mut [u8])
    requires { p.old.stage ≡ Stage.First }
    ensures { D.done m.new p.new out.new ≡ D.turned p.old out.old (T.setup_turn m.old x) }
{
    if fresh(m, x.n, x.k, x.w) {
        p.written = put_line(out, p.written, 0, Answer::Ok);
        p.stage = Stage::At(1);
    } else {
        refused_turn(m, p, out, Refusal::BadSizes);
    }
}

// The kind is a byte here and in record_turn, as `schedule` hands it over and takes it back.
fn event_turn(m: &mut Memory, p: &mut Progress, i: u64, kind: u8, body: &[u8], out: &mut [u8])
    ensures { D.done m.new p.new out.new ≡ D.turned p.old out.old (T.event_turn m.old i kind body.now) }
{
    let a = apply(m, event_of(kind, body));
    p.written = put_line(out, p.written, i, a);
    p.stage = Stage::At(number_after(i));
}

// A record; the first is the setup.
#[tactic(auto, unfolding(answers::specs::Put::put_of))]
pub(crate) fn record_turn(m: &mut Memory, p: &mut Progress, kind: u8, body: &[u8], out: &mut [u8])
    ensures { D.done m.new p.new out.new ≡ D.turned p.old out.old (T.record_turn m.old p.old.stage kind body.now) }
{
    match p.stage {
        Stage::First => setup_turn(m, p, setup_of(body), out),
        Stage::At(i) => event_turn(m, p, i, kind, body, out),
        Stage::Over(_) => {}
    }
}

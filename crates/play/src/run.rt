// One record after the other, and the end.
ghost use Rattle.std.specs.Prelude.{◌≡◌, ◌≤◌, length, drop};
ghost use Rattle.answers.specs.Put.{filled, put_of};
ghost use Rattle.play.specs.Tick as T;
ghost use Rattle.play.specs.Done as D;

use crate::reading::{has_begun, is_over};
use crate::record::{record_turn, refused_turn};
use crate::{Progress, Stage};
use answers::{put_last, put_line};
use events::{Answer, Refusal};
use memory::Memory;
use schedule::{Head, body_at, head_at};

// What stands at the place of the input that playing has come to. The memory and the output are lent to `play` by themselves, and so
// from turn to turn.
fn turn(m: &mut Memory, p: &mut Progress, input: &[u8], out: &mut [u8])
    ensures { D.done m.new p.new out.new ≡ D.done_from out.old p.old.written p.old.used (T.play_of 1 m.old p.old.stage (drop p.old.used input.now)) }
{
    if is_over(p.stage) {
        return;
    }
    match head_at(input, p.used, has_begun(p.stage)) {
        Head::Record(kind, n) => {
            record_turn(m, p, kind, body_at(input, p.used, kind), out);
            p.used += 1 + n;
        }
        Head::Unknown => refused_turn(m, p, out, Refusal::UnknownKind),
        Head::Short | Head::End => {}
    }
}

// Plays records from the front of the input, as many as are there and as the output has room for the lines of: a line has at most
// 45 bytes.
pub fn play(m: &mut Memory, stage: Stage, input: &[u8], out: &mut [u8]) -> Progress
    ensures played { D.done m.new result out.new ≡ D.played_into m.old stage input.now out.old }
    ensures inside { (result.used ≤ length input.now) × (result.written ≤ length out.old) }
{
    let mut p = Progress {
        stage,
        used: 0,
        written: 0,
    };
    for _ in 0..out.len() / 48 {
        let used = p.used;
        turn(m, &mut p, input, out);
        if p.used == used {
            return p;
        }
    }
    p
}

// The end of the input, with these bytes left, of which `play` can play nothing. The last line is absent when there was no good
// setup.
#[tactic(auto, using(crate::proofs::RunLaws::close_cut), unfolding(answers::specs::Put::put_of))]
pub fn finish(m: &Memory, stage: Stage, rest: &[u8], out: &mut [u8]) -> usize
    ensures { filled out.new result ≡ put_of out.old 0 (T.closing stage m.now rest.now) }
{
    match stage {
        Stage::First => put_line(out, 0, 0, Answer::from(Refusal::Short)),
        Stage::At(_) if rest.is_empty() => put_last(out, 0, m),
        Stage::At(i) => {
            let to = put_line(out, 0, i, Answer::from(Refusal::Short));
            put_last(out, to, m)
        }
        Stage::Over(true) => put_last(out, 0, m),
        Stage::Over(false) => 0,
    }
}

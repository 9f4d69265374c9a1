// tick: reads a schedule on standard input, and writes the line of each record and the last line on standard output.
#![tactic(auto)]

ghost use Rattle.std.specs.Prelude.{◌≡◌};
ghost use Rattle.drive.specs.ByPlay.{ByPlay};

use drive::Player;
use memory::Memory;
use play::{Stage, finish, play};

#[derive(Drop)]
struct Tick<'a, R> {
    rt: &'a R,
    memory: Memory,
    stage: Stage,
    // a fixed buffer: nothing is allocated
    out: [u8; 65536],
}

impl<R: Print> Tick<'_, R> {
    // The end of the input, with these bytes left.
    fn end(&mut self, rest: &[u8]) {
        let n = finish(&self.memory, self.stage, rest, &mut self.out);
        let _ = self.rt.write_all(self.out.get(..n).unwrap_or(&self.out));
    }
}

impl<R: Print> Player for Tick<'_, R> {
    ghost stage_of = { λ s. s.stage };

    ghost plays = { λ s x t n. ByPlay s.memory s.stage x s.out t.memory t.stage t.out n };

    // No text is kept back.
    ghost flushes = { λ s t. t ≡ s };

    // A write that fails ends reading, and nothing more is written.
    fn play_on(&mut self, input: &[u8]) -> usize {
        let r = play(&mut self.memory, self.stage, input, &mut self.out);
        let went_well = self.rt.write_all(&self.out[..r.written]).is_ok();
        self.stage = if went_well {
            r.stage
        } else {
            Stage::Over(false)
        };
        r.used
    }

    fn stage(&self) -> Stage {
        self.stage
    }

    fn flush(&mut self) {}
}

fn main(rt: HostRuntime) {
    let mut input = [0u8; 65536];
    let mut tick = Tick {
        rt: &rt,
        memory: [0; 646],
        stage: Stage::First,
        out: [0; 65536],
    };
    let left = tick.play_input(&mut rt.stdin(), &mut input);
    tick.end(&input[..left]);
}

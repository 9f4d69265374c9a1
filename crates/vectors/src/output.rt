// The whole output of a whole schedule, in a buffer.
ghost use Rattle.std.specs.Prelude.{◌≡◌, ◌≤◌, ◌+◌, length, drop};
ghost use Rattle.drive.specs.ByPlay.{ByPlay};

use drive::Player;
use memory::Memory;
use play::{Stage, finish, play};

#[derive(Drop)]
struct Output<'a> {
    memory: Memory,
    stage: Stage,
    bytes: &'a mut [u8],
    written: usize,
    ghost inside: { written ≤ length bytes.now },
}

impl Player for Output<'_> {
    ghost stage_of = { λ s. s.stage };

    // Behind what is written, of which there is so much more then; the buffer keeps its length, and no write can fail.
    ghost plays = { λ s x t n. (length t.bytes.now ≡ length s.bytes.now)
        × (p : ByPlay s.memory s.stage x (drop s.written s.bytes.now) t.memory t.stage (drop s.written t.bytes.now) n)
        × (t.stage ≡ p.progress.stage) × (t.written ≡ s.written + p.progress.written) };

    // The text stands in the buffer at once.
    ghost flushes = { λ s t. t ≡ s };

    // Behind what is written already, as long as there is room.
    fn play_on(&mut self, input: &[u8]) -> usize {
        let r = play(
            &mut self.memory,
            self.stage,
            input,
            &mut self.bytes[self.written..],
        );
        self.stage = r.stage;
        self.written += r.written;
        r.used
    }

    fn stage(&self) -> Stage {
        self.stage
    }

    fn flush(&mut self) {}
}

pub(crate) fn whole_output<'a>(input: &[u8], out: &'a mut [u8]) -> &'a [u8]
    ensures { length result.now ≤ length out.old }
{
    let mut output = Output {
        memory: [0; 646],
        stage: Stage::First,
        bytes: out,
        written: 0,
    };
    let used = output.play_all(input);
    let Output {
        memory,
        stage,
        bytes,
        written,
    } = output;
    let n = finish(&memory, stage, &input[used..], &mut bytes[written..]);
    let end = written + n.min(bytes.len() - written);
    &bytes[..end]
}

// trace: reads a schedule on standard input as `tick` does, and writes the lines of `tick`; after the line of a record what the record
// changed, after the last line the whole memory. docs/TRACE.md has the lines.
#![tactic(auto)]

ghost use Rattle.std.specs.Prelude.{◌≡◌, List, ℕ, length};
ghost use Rattle.drive.specs.ByPlay.{ByPlay, Written};

mod changes;
mod decimal;
mod lines;
mod page;
mod values;
mod workers;

use changes::put_changes;
use drive::Player;
use memory::Memory;
use page::Page;
use play::{Stage, finish, has_begun, play};

#[derive(Drop)]
struct Trace<'a, R> {
    rt: &'a R,
    memory: Memory,
    stage: Stage,
    page: Page,
}

impl<R: Print> Trace<'_, R> {
    // The end of the input, with these bytes left: the last lines have at most 1391 bytes.
    fn end(&mut self, rest: &[u8]) {
        let mut lines = [0u8; 2048];
        let n = finish(&self.memory, self.stage, rest, &mut lines);
        self.page.put(lines.get(..n).unwrap_or(&lines));
        if has_begun(self.stage) {
            let _ = put_changes(&mut self.page, None, &self.memory);
        }
        self.flush();
    }
}

impl<R: Print> Player for Trace<'_, R> {
    ghost stage_of = { λ s. s.stage };

    // Into a line of 48 bytes; its text goes into the page.
    ghost plays = { λ s x t n. (line : List ℕ) × (o : List ℕ) × (length line ≡ 48) × ByPlay s.memory s.stage x line t.memory t.stage o n };

    ghost flushes = { λ s t. (t.memory ≡ s.memory) × Written s.stage t.stage };

    // One record: a line of 48 bytes has room for no more. A good setup makes all of the memory new.
    fn play_on(&mut self, input: &[u8]) -> usize {
        let old = self.memory;
        let mut line = [0u8; 48];
        let r = play(&mut self.memory, self.stage, input, &mut line);
        self.page.put(&line[..r.written]);
        let is_setup = self.stage == Stage::First && has_begun(r.stage);
        let before = if is_setup { None } else { Some(&old) };
        let _ = put_changes(&mut self.page, before, &self.memory);
        self.stage = r.stage;
        if self.page.is_half_full() {
            self.flush();
        }
        r.used
    }

    fn stage(&self) -> Stage {
        self.stage
    }

    // A write that fails ends reading, and nothing more is written.
    fn flush(&mut self) {
        if self.page.write(self.rt).is_err() {
            self.stage = Stage::Over(false);
        }
    }
}

fn main(rt: HostRuntime) {
    let mut input = [0u8; 65536];
    let mut trace = Trace {
        rt: &rt,
        memory: [0; 646],
        stage: Stage::First,
        page: Page::new(),
    };
    let left = trace.play_input(&mut rt.stdin(), &mut input);
    trace.end(&input[..left]);
}

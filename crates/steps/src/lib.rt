// Where a worker stands, and what its next step does: the steps of an operation, the read, and recovery (document 01, "The steps of
// an operation d"). No memory here: a plan is made from what a step sees, and has at most one effect.
#![tactic(auto)]

mod common;
mod operation;
mod recovery;

pub use common::{goes, left_value, planned, read_clear_plan, read_plan};
pub use operation::{
    decide, install, install_clear, persist_clear, settle, settle_clear, store_free, swap,
    swap_clear,
};
pub use recovery::recovery_plan;
use word::{Outcome, Sort, Status};

// A place in the steps of an operation: which step is next. Its first number is the entry, counted from 0. What the step does, and
// its tests, are in specs/Operation.antt.
#[derive(Clone, Copy, PartialEq, Eq, Debug)]
pub enum Place {
    // 1. Owner only: write back the body; store Undecided; write back the status
    BackBody,
    StoreUndecided,
    BackUndecided,
    // 2. Install an entry; clear the dirty bit of the plain word that was written back there (the second number is its value)
    Install(u64),
    InstallClear(u64, u64),
    // 3. Write back an entry's word; clear its dirty bit
    Persist(u64),
    PersistClear(u64),
    // 4. Store the outcome
    Decide(Outcome),
    // 5. Write back the status; clear its dirty bit
    Settle,
    SettleClear,
    // 6. Swap an entry's pointer for its value; write back the word; clear its dirty bit
    Swap(u64),
    SwapBack(u64),
    SwapClear(u64),
    // 7. Store Free; write back the status and answer by the outcome that it was
    StoreFree,
    BackFree(Outcome),
}

// What a worker that runs something owns: an operation, by its descriptor, or a read, by its address.
#[derive(Clone, Copy, PartialEq, Eq, Debug)]
pub enum Own {
    Operation(u64),
    Read(u64),
}

// A worker owns nothing (Idle), a descriptor being built, a running operation, or a read. Its current job is its own, or one it helps.
#[derive(Clone, Copy, PartialEq, Eq, Debug)]
pub enum Worker {
    Idle,
    // a descriptor being built
    Building(u64),
    // what it owns; its current job is this operation, its own or one it helps; the place there
    Working(Own, u64, Place),
    // a read of this address, that is its current job
    Reading(u64),
    // the read's clearing step: the address, and the value first seen
    ReadClear(u64, u64),
}

// Recovery's place: none outside recovery, or the descriptor and the steps done there. No Option of a pair: it would not say which of
// the two is the descriptor.
#[derive(Clone, Copy, PartialEq, Eq, Debug)]
pub enum RecoveryPlace {
    Outside,
    At(u64, u64),
}

// An entry of a body.
#[derive(Clone, Copy, PartialEq, Eq, Default, Debug)]
pub struct Entry {
    pub address: u64,
    pub expected: u64,
    pub desired: u64,
}

// What a step looks at: the status of its descriptor, the count, the entry that it is at, the word at that entry's address. A step of an operation sees the cached
// copy, a step of recovery the persisted status and body, and the cached word.
#[derive(Clone, Copy, PartialEq, Eq, Debug)]
pub struct Seen {
    pub status: Status,
    pub count: u64,
    pub entry: Entry,
    pub word: Sort,
}

// What a step does to memory: nothing, a store to the word at an address or to the descriptor's status, a write-back of one of these or of the body.
#[derive(Clone, Copy, PartialEq, Eq, Debug)]
pub enum Effect {
    Nothing,
    StoreWord(u64, Sort),
    BackWord(u64),
    StoreStatus(Status),
    BackStatus,
    BackBody,
}

// What comes after a step of an operation.
#[derive(Clone, Copy, PartialEq, Eq, Debug)]
pub enum Next {
    // the same job goes on at this place
    Go(Place),
    // the current job becomes this operation, at its install 0
    Help(u64),
    // a helper is done: back to its own job's start
    Over,
    // the owner waits where it is
    Wait,
    // the owner answers and is idle
    Answer(Outcome),
}

// A step of an operation, with what comes next (Next); of a read (ReadNext); or of recovery: the steps then done at its descriptor,
// None after its last.
#[derive(Clone, Copy, PartialEq, Eq, Debug)]
pub struct Plan<N> {
    pub effect: Effect,
    pub next: N,
}

// What comes after a step of a read.
#[derive(Clone, Copy, PartialEq, Eq, Debug)]
pub enum ReadNext {
    // the current job becomes this operation, at its install 0
    Meet(u64),
    // the clearing step, with the value first seen
    Clear(u64),
    // this value is the answer
    Value(u64),
}

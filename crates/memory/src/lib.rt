// The whole machine in one lent block: every word, status and body in a cached and a persisted copy, the workers, the sizes and
// recovery's place. Only this crate knows where each number stands. Past the 64 words, 16 descriptors
// and 8 workers that a block has room for, 0 is read, and a store changes nothing.
#![tactic(auto)]

mod begin;
mod block;
mod bodies;
mod value;
mod words;
mod workers;

pub use begin::{fresh, read_sizes};
pub use bodies::{
    back_body, clear_body, crash_copy, find_entry, put_count, put_entry, read_count, read_entry,
};
pub use value::value_of;
pub use words::{back_status, back_word, put_status, put_word, read_status, read_word};
pub use workers::{
    idle_workers, put_recovery, put_worker, put_working, read_recovery, read_row, read_worker,
};

// The block; slot 646 is nowhere. Numbers of one array, lent: each promise and theorem is about this list of numbers (`Block`).
pub type Memory = [u64; 646];

// Each word, status and body has a cached and a persisted copy.
#[derive(Clone, Copy, PartialEq, Eq, Debug)]
pub enum Copy {
    Cached,
    Persisted,
}

// n words (1 to 64), k descriptors (1 to 16), w workers (1 to 8).
#[derive(Clone, Copy, PartialEq, Eq, Debug)]
pub struct Sizes {
    pub n: u64,
    pub k: u64,
    pub w: u64,
}

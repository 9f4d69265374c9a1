// What a 64-bit number means in memory: document 01, "What the memory holds".
#![tactic(auto)]

ghost use Rattle.std.specs.Prelude.{◌≡◌, ◌<◌, ◌^◌};
ghost use Rattle.word.specs.Word.{sort_of, marked, plain_word, pointer_word, word_number, word_cleared};
ghost use Rattle.word.specs.Status.{status_of, outcome_number, status_number, status_cleared};

const DIRTY: u64 = 1 << 63;

const POINTER: u64 = 1 << 62;

const RESERVED: u64 = 1 << 61;

// A word: a plain value or a pointer to a descriptor, each with its dirty bit; or a number that is neither, whole.
#[derive(Clone, Copy, PartialEq, Eq, Debug)]
pub enum Sort {
    Plain(u64, bool),
    Pointer(u64, bool),
    Neither(u64),
}

// What an operation is decided to be.
#[derive(Clone, Copy, PartialEq, Eq, Debug)]
pub enum Outcome {
    Succeeded,
    Failed,
}

// A status: the dirty bit stands on Succeeded and Failed only; Bad is a number that is no status, whole.
#[derive(Clone, Copy, PartialEq, Eq, Debug)]
pub enum Status {
    Free,
    Undecided,
    Decided(Outcome, bool),
    Bad(u64),
}

// Words and statuses are made of numbers by functions, and no From: docs/PROMISES.md, its theorems and edits know each by its definition's name.
pub fn sort_of(w: u64) -> Sort
    ensures { result ≡ sort_of w }
{
    let content = w & (RESERVED - 1);
    let dirty = w & DIRTY != 0;
    if w & RESERVED != 0 {
        return Sort::Neither(w);
    }
    if w & POINTER != 0 {
        return Sort::Pointer(content, dirty);
    }
    Sort::Plain(content, dirty)
}

fn with_mark(dirty: bool, n: u64) -> u64
    requires { n < 2 ^ 63 }
    ensures { result ≡ marked dirty n }
{
    if dirty { DIRTY + n } else { n }
}

// Bits 0 to 60 of the value go in.
pub fn plain_word(v: u64, dirty: bool) -> u64
    ensures { result ≡ plain_word v dirty }
{
    with_mark(dirty, v % RESERVED)
}

// Bits 0 to 60 of the descriptor's number go in.
pub fn pointer_word(d: u64, dirty: bool) -> u64
    ensures { result ≡ pointer_word d dirty }
{
    with_mark(dirty, POINTER + d % RESERVED)
}

pub fn word_number(s: Sort) -> u64
    ensures { result ≡ word_number s }
{
    match s {
        Sort::Plain(v, dirty) => plain_word(v, dirty),
        Sort::Pointer(d, dirty) => pointer_word(d, dirty),
        Sort::Neither(w) => w,
    }
}

// The word with its dirty bit cleared.
pub fn word_cleared(s: Sort) -> Sort
    ensures { result ≡ word_cleared s }
{
    match s {
        Sort::Plain(v, _) => Sort::Plain(v, false),
        Sort::Pointer(d, _) => Sort::Pointer(d, false),
        Sort::Neither(w) => Sort::Neither(w),
    }
}

#[tactic(auto, unfolding(crate::specs::Status::status_of))]
pub fn status_of(x: u64) -> Status
    ensures { result ≡ status_of x }
{
    let n = x % DIRTY;
    let dirty = x / DIRTY != 0;
    if x == 0 {
        return Status::Free;
    }
    if x == 1 {
        return Status::Undecided;
    }
    if n == 2 {
        return Status::Decided(Outcome::Succeeded, dirty);
    }
    if n == 3 {
        return Status::Decided(Outcome::Failed, dirty);
    }
    Status::Bad(x)
}

fn decided_number(o: Outcome, dirty: bool) -> u64
    ensures { result ≡ marked dirty (outcome_number o) }
{
    match o {
        Outcome::Succeeded => with_mark(dirty, 2),
        Outcome::Failed => with_mark(dirty, 3),
    }
}

pub fn status_number(s: Status) -> u64
    ensures { result ≡ status_number s }
{
    match s {
        Status::Free => 0,
        Status::Undecided => 1,
        Status::Decided(o, dirty) => decided_number(o, dirty),
        Status::Bad(x) => x,
    }
}

// The status with its dirty bit cleared.
pub fn status_cleared(s: Status) -> Status
    ensures { result ≡ status_cleared s }
{
    match s {
        Status::Decided(o, _) => Status::Decided(o, false),
        other => other,
    }
}

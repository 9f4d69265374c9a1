// What has a cached and a persisted copy: words, statuses and bodies.
use crate::decimal::Decimal;
use crate::lines::Copied;
use crate::page::Page;
use memory::{Memory, read_count, read_entry, read_status, read_word};
use std::fmt::Write;
use std::{array, fmt};
use steps::Entry;
use word::{Outcome, Sort, Status};

fn mark(dirty: bool) -> &'static str {
    if dirty { " dirty" } else { "" }
}

impl Copied for Sort {
    const NAME: &'static str = "word";

    fn read(m: &Memory, c: memory::Copy, a: u64) -> Self {
        read_word(m, c, a)
    }

    fn put(&self, page: &mut Page) -> fmt::Result {
        match *self {
            Sort::Plain(v, dirty) => write!(page, " {}{}", Decimal(v), mark(dirty)),
            Sort::Pointer(d, dirty) => write!(page, " pointer to {}{}", Decimal(d), mark(dirty)),
            Sort::Neither(x) => write!(page, " neither {}", Decimal(x)),
        }
    }
}

impl Copied for Status {
    const NAME: &'static str = "status";

    fn read(m: &Memory, c: memory::Copy, d: u64) -> Self {
        read_status(m, c, d)
    }

    fn put(&self, page: &mut Page) -> fmt::Result {
        match *self {
            Status::Free => write!(page, " Free"),
            Status::Undecided => write!(page, " Undecided"),
            Status::Decided(Outcome::Succeeded, dirty) => write!(page, " Succeeded{}", mark(dirty)),
            Status::Decided(Outcome::Failed, dirty) => write!(page, " Failed{}", mark(dirty)),
            Status::Bad(x) => write!(page, " bad {}", Decimal(x)),
        }
    }
}

// Every number of a body: an entry past the count counts as a change too.
#[derive(Clone, Copy, PartialEq)]
pub(crate) struct Body {
    count: u64,
    entries: [Entry; 4],
}

impl Copied for Body {
    const NAME: &'static str = "body";

    fn read(m: &Memory, c: memory::Copy, d: u64) -> Self {
        Body {
            count: read_count(m, c, d),
            entries: array::from_fn(|i| read_entry(m, c, d, i as u64)),
        }
    }

    // As many entries as the count, at most four.
    fn put(&self, page: &mut Page) -> fmt::Result {
        if self.count == 0 {
            return write!(page, " empty");
        }
        for e in &self.entries[..self.count.min(4) as usize] {
            write!(
                page,
                " {}:{}>{}",
                Decimal(e.address),
                Decimal(e.expected),
                Decimal(e.desired)
            )?;
        }
        Ok(())
    }
}

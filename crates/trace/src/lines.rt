// A line of the memory: it is read, held to what it was before, and put. docs/TRACE.md has the lines.
use crate::decimal::Decimal;
use crate::page::Page;
use memory::Memory;
use std::fmt;
use std::fmt::Write;

// Not Display: a line needs the number of what it is about, and the types are other crates'.
pub(crate) trait Line: Copy + PartialEq {
    fn read(m: &Memory, i: u64) -> Self;

    // Without the newline.
    fn put(&self, page: &mut Page, i: u64) -> fmt::Result;
}

// Something that has a cached and a persisted copy.
pub(crate) trait Copied: Copy + PartialEq {
    const NAME: &'static str;

    fn read(m: &Memory, c: memory::Copy, i: u64) -> Self;

    fn put(&self, page: &mut Page) -> fmt::Result;
}

#[derive(Clone, Copy, PartialEq)]
pub(crate) struct Copies<T> {
    cached: T,
    persisted: T,
}

// A line shows both copies, if either has changed.
impl<T: Copied> Line for Copies<T> {
    fn read(m: &Memory, i: u64) -> Self {
        Copies {
            cached: T::read(m, memory::Copy::Cached, i),
            persisted: T::read(m, memory::Copy::Persisted, i),
        }
    }

    fn put(&self, page: &mut Page, i: u64) -> fmt::Result {
        let name = T::NAME;
        write!(page, "  {name} {}  cached", Decimal(i))?;
        self.cached.put(page)?;
        write!(page, "  persisted")?;
        self.persisted.put(page)
    }
}

// The lines below n that have changed since; all of them, where there is nothing before.
pub(crate) fn put_lines<L: Line>(
    page: &mut Page,
    before: Option<&Memory>,
    m: &Memory,
    n: u64,
) -> fmt::Result {
    for i in 0..n {
        let line = L::read(m, i);
        if before.is_none_or(|old| L::read(old, i) != line) {
            line.put(page, i)?;
            writeln!(page)?;
        }
    }
    Ok(())
}

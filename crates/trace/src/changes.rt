// What has changed in the memory; or all of it, where there is nothing before.
use crate::lines::{Copies, put_lines};
use crate::page::Page;
use crate::values::Body;
use memory::{Memory, read_sizes};
use std::fmt;
use steps::{RecoveryPlace, Worker};
use word::{Sort, Status};

// Only addresses below n, descriptors below k, workers below w have lines.
pub(crate) fn put_changes(page: &mut Page, before: Option<&Memory>, m: &Memory) -> fmt::Result {
    let s = read_sizes(m);
    put_lines::<Copies<Sort>>(page, before, m, s.n)?;
    put_lines::<Copies<Status>>(page, before, m, s.k)?;
    put_lines::<Copies<Body>>(page, before, m, s.k)?;
    put_lines::<Worker>(page, before, m, s.w)?;
    put_lines::<RecoveryPlace>(page, before, m, 1)
}

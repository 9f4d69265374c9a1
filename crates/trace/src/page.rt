// The text that is not written yet.
ghost use Rattle.std.specs.Prelude.{◌≤◌};
ghost use Rattle.trace.specs.declared.page.TheConstants.{SIZE};

use std::{fmt, io};

const SIZE: usize = 65536;

// What one record changes is less than 14 KiB of text: 64 lines of words, 16 of bodies with two times four entries, and the rest. So
// where half is free, there is room for it.
const HALF: usize = 32768;

#[derive(Drop)]
pub(crate) struct Page {
    bytes: [u8; SIZE],
    len: usize,
    ghost inside: { len ≤ SIZE },
}

impl Page {
    pub(crate) fn new() -> Self {
        Page {
            bytes: [0; SIZE],
            len: 0,
        }
    }

    pub(crate) fn is_half_full(&self) -> bool {
        self.len > HALF
    }

    // Where there is no room for all of it, the rest is not put.
    pub(crate) fn put(&mut self, text: &[u8]) {
        let n = text.len().min(SIZE - self.len);
        let end = self.len + n;
        self.bytes[self.len..end].copy_from_slice(&text[..n]);
        self.len = end;
    }

    // Writes the text; no text is left then.
    pub(crate) fn write(&mut self, rt: &impl Print) -> io::Result<()> {
        let n = self.len;
        self.len = 0;
        rt.write_all(&self.bytes[..n])
    }
}

// A page refuses no text.
impl fmt::Write for Page {
    fn write_str(&mut self, s: &str) -> fmt::Result {
        self.put(s.as_bytes());
        Ok(())
    }
}

// Files of at most 65,535 bytes, whole.
ghost use Rattle.std.specs.Prelude.{◌≤◌, length, IfSome};

use std::fs;
use std::io::Read;
use std::rt::Files;

// Reads until the buffer is full, the file ends or a read fails; how many bytes there are then.
fn read_full(file: &mut impl Read, buf: &mut [u8]) -> usize
    ensures { result ≤ length buf.new }
{
    let mut n = 0;
    // No count by one: each read says how far it came.
    while n < buf.len() {
        match file.read(&mut buf[n..]) {
            Ok(got) if got > 0 => n += got,
            _ => break,
        }
    }
    n
}

// Reads a file to the start of a buffer; one that fills the buffer may be longer, and does not count.
pub(crate) fn load<'a>(rt: &impl Files, path: &[u8], buf: &'a mut [u8]) -> Option<&'a [u8]>
    ensures { IfSome result (λ s. length s.now ≤ length buf.old) }
{
    let path = str::from_utf8(path).ok()?;
    let mut file = fs::open(rt, path).ok()?;
    let n = read_full(&mut file, buf);
    if n == buf.len() {
        return None;
    }
    Some(&buf[..n])
}

// Reads the file with a name and an ending. No path has 4096 bytes.
pub(crate) fn load_part<'a>(
    rt: &impl Files,
    name: &[u8],
    ending: &[u8],
    buf: &'a mut [u8],
) -> Option<&'a [u8]>
    ensures { IfSome result (λ s. length s.now ≤ length buf.old) }
{
    let mut path = [0u8; 4096];
    let n = name.len();
    let end = n + ending.len();
    if end > path.len() {
        return None;
    }
    path[..n].copy_from_slice(name);
    path[n..end].copy_from_slice(ending);
    load(rt, &path[..end], buf)
}

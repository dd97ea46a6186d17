// Bytes of a file, from any place of it.
ghost use Rattle.std.specs.Prelude.{IfOk, ◌<◌, ◌≤◌, ◌+◌, length};

use super::tell::{tell, tell_failed};
use console::told::Errors;
use std::fs::File;
use std::os::unix::fs::FileExt;

// Bytes that could not be read, which was told.
#[derive(Clone, Copy, PartialEq, Eq)]
pub struct Unread;

// The last place that the system takes.
const LAST_PLACE: u64 = 0x7FFFFFFFFFFFFFFF;

// The bytes of a file from `at` on, but none from `stop` on, as many as one read puts at the start of a buffer: one at least, or none were
// read, since the read failed or the file was cut.
pub fn window<'b>(
    rt: &impl Errors,
    name: &[u8],
    file: &File,
    at: u64,
    stop: u64,
    bytes: &'b mut [u8],
) -> Result<&'b [u8], Unread>
    ensures { IfOk result (λ b. (0 < length b.now) × (at + length b.now ≤ stop)) }
{
    match file.read_at(bytes, at.min(LAST_PLACE)) {
        Err(e) => {
            tell_failed(rt, name, e);
            Err(Unread)
        }
        Ok(n) => {
            if n == 0 {
                tell(rt, name, b" became shorter while it was read");
            }
            let n = (n as u64).min(stop.saturating_sub(at)) as usize;
            if n == 0 { Err(Unread) } else { Ok(&bytes[..n]) }
        }
    }
}

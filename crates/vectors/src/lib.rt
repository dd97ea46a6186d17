// The oracle's vectors: reading one, and counting those that agree. An answer is built in `answer`.
// A vector: op, the text's length (two bytes, low first), the text, the answer's length (two bytes, low first), the answer.
#![tactic(auto)]

pub mod answer;
pub mod op;

ghost use Rattle.std.specs.Prelude.{◌≡◌, ◌+◌, ◌*◌};

use op::Op;
use std::io;
use std::io::Read;

// A vector that was read: its op, its text and its answer.
#[derive(Clone, Copy)]
pub struct Vector<'a> {
    pub op: Op,
    pub text: &'a [u8],
    pub answer: &'a [u8],
}

// Why no vector was read: the input stops within one or has one that is too long, or the system does not read it.
#[derive(Clone, Copy)]
pub enum Unread {
    Broken,
    System(io::Error),
}

impl From<io::Error> for Unread {
    fn from(e: io::Error) -> Unread {
        Unread::System(e)
    }
}

// The number in two bytes, the low byte first.
pub fn pair(low: u8, high: u8) -> usize
    ensures { result ≡ low + 256 * high }
{
    usize::from(u16::from_le_bytes([low, high]))
}

// Reads until a buffer is full or the input ends, and answers how many bytes are at its front.
pub fn read_full<R: Read>(input: &mut R, buffer: &mut [u8]) -> io::Result<usize> {
    let mut rest = input.by_ref().take(buffer.len() as u64);
    let mut room = buffer;
    let n = io::copy(&mut rest, &mut room)?;
    Ok(n as usize)
}

// Reads n bytes to the front of a buffer, where they fit, and lends them.
fn read_front<'a, R: Read>(
    input: &mut R,
    buffer: &'a mut [u8],
    n: usize,
) -> Result<&'a [u8], Unread> {
    if buffer.len() < n {
        return Err(Unread::Broken);
    }
    let front = &mut buffer[..n];
    if read_full(input, front)? < n {
        return Err(Unread::Broken);
    }
    Ok(front)
}

// Reads the next vector: its text to the front of `text`, its answer to the front of `answer`. There is none at the input's end.
pub fn next_vector<'a, R: Read>(
    input: &mut R,
    text: &'a mut [u8],
    answer: &'a mut [u8],
) -> Result<Option<Vector<'a>>, Unread> {
    let mut head = [0u8; 3];
    let got = read_full(input, &mut head)?;
    if got == 0 {
        return Ok(None);
    }
    if got < 3 {
        return Err(Unread::Broken);
    }
    let text = read_front(input, text, pair(head[1], head[2]))?;
    let mut size = [0u8; 2];
    read_front(input, &mut size, 2)?;
    let answer = read_front(input, answer, pair(size[0], size[1]))?;
    Ok(Some(Vector {
        op: Op::from(head[0]),
        text,
        answer,
    }))
}

// How many vectors of a run were replayed, and how many of them agree.
#[derive(Clone, Copy, Default)]
pub struct Tally {
    pub agree: u64,
    pub total: u64,
}

impl Tally {
    // One vector more: it agrees, or it is named.
    pub fn count(&mut self, rt: &impl Print, agrees: bool) -> io::Result<()> {
        let place = self.total;
        self.total = place.wrapping_add(1);
        if agrees {
            self.agree = self.agree.wrapping_add(1);
            return Ok(());
        }
        println!(rt; "differs: vector {place}")
    }

    // The end of the run: how many agree.
    pub fn finished(self, rt: &impl Print) -> io::Result<()> {
        let agree = self.agree;
        let total = self.total;
        println!(rt; "{agree} of {total} agree")
    }

    // An input that stops within a vector.
    pub fn broken(self, rt: &impl Print) -> io::Result<()> {
        let place = self.total;
        println!(rt; "broken: vector {place}")
    }
}

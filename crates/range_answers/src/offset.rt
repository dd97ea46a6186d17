// The offsets of a range's end, read again from the bytes that the range reader says they are, and written as the oracle writes them.
// Each is a sign and a count, which is 1 where the sign has no digits.
use ranges::range::MoveDir1D;
use vectors::answer::Answer;

// An offset that is being read: its direction, and its digits so far.
#[derive(Clone, Copy)]
struct Offset {
    direction: MoveDir1D,
    count: Option<u64>,
}

// The direction of a sign.
fn direction(b: u8) -> Option<MoveDir1D> {
    match b {
        0x2B => Some(MoveDir1D::Next),
        0x2D => Some(MoveDir1D::Previous),
        _ => None,
    }
}

// How many offsets a part of the text has: one for each sign.
fn signs(s: &[u8]) -> usize {
    s.iter().filter(|&&b| b == 0x2B || b == 0x2D).count()
}

// The offset with one digit more.
fn with_digit(o: Offset, b: u8) -> Offset {
    let tens = o.count.unwrap_or(0).checked_mul(10).unwrap_or(0);
    Offset {
        direction: o.direction,
        count: Some(tens.wrapping_add(u64::from(b % 16))),
    }
}

fn put_offset(out: &mut Answer, o: Offset) {
    let back = match o.direction {
        MoveDir1D::Next => 0,
        MoveDir1D::Previous => 1,
    };
    out.put_two(back, o.count.unwrap_or(1));
}

// The offsets of an end: how many, and each. A sign begins one, a digit goes on with it.
pub fn put_offsets(out: &mut Answer, s: &[u8]) {
    out.put_number(signs(s) as u64);
    let mut begun: Option<Offset> = None;
    for &b in s {
        match direction(b) {
            Some(d) => {
                if let Some(o) = begun {
                    put_offset(out, o);
                }
                begun = Some(Offset {
                    direction: d,
                    count: None,
                });
            }
            None => begun = begun.map(|o| with_digit(o, b)),
        }
    }
    if let Some(o) = begun {
        put_offset(out, o);
    }
}

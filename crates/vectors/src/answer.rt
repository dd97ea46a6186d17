// An answer, built as the oracle writes it.
ghost use Rattle.std.specs.Prelude.{◌≡◌, ℕ, List, [], ◌∷◌, ◌++◌, ◌≤◌, take};
ghost use Rattle.limits.specs.Refusals.{refusal_no};
ghost use Rattle.store.specs.Sevens.{encode, named};
ghost use Rattle.vectors.specs.Answer.{with};

use limits::refusal::Refusal;
use std::marker::Model;

// How long an answer can be.
pub const ANSWER: usize = 4096;

// An answer's bytes so far: those before `end`. What does not fit is left out.
#[derive(Drop)]
pub struct Answer {
    bytes: [u8; ANSWER],
    end: usize,
}

impl Model for Answer {
    ghost Value = { List ℕ };

    ghost view = { λ a. take a.end a.bytes };

    ghost invariant = { λ a. a.end ≤ 4096 };
}

impl Answer {
    // An answer with nothing in it.
    pub fn new() -> Answer
        ensures { result ≡ [] }
    {
        Answer {
            bytes: [0; ANSWER],
            end: 0,
        }
    }

    // The bytes so far.
    pub fn written(&self) -> &[u8]
        ensures { result.now ≡ self.now }
    {
        &self.bytes[..self.end]
    }

    // One byte more.
    pub fn put_byte(&mut self, b: u8)
        ensures { self.new ≡ with self.old (b ∷ []) }
    {
        if self.end < ANSWER {
            self.bytes[self.end] = b;
            self.end += 1;
        }
    }

    // A number in groups of seven bits, low group first, 0x80 set on all but the last. What is left says when to stop, so a `for` over the
    // groups would be left early and is no plainer than the `while`.
    pub fn put_number(&mut self, x: u64)
        ensures { self.new ≡ with self.old (encode x) }
    {
        let mut left = x;
        while 128 <= left {
            self.put_byte((left % 128 + 128) as u8);
            left = left / 128;
        }
        self.put_byte(left as u8);
    }

    // Two numbers.
    pub fn put_two(&mut self, a: u64, b: u64)
        ensures { self.new ≡ with self.old (encode a ++ encode b) }
    {
        self.put_number(a);
        self.put_number(b);
    }

    // An answer that is a refusal: its number, in place of what was there.
    pub fn refuse(&mut self, x: Refusal)
        ensures { self.new ≡ with [] (encode (refusal_no x)) }
    {
        self.end = 0;
        self.put_number(u64::from(x));
    }

    // Bytes as they are.
    pub fn put_bytes(&mut self, s: &[u8])
        ensures { self.new ≡ with self.old s.now }
    {
        for i in 0..s.len() {
            self.put_byte(s[i]);
        }
    }

    // A name: its byte count and its bytes.
    pub fn put_name(&mut self, s: &[u8])
        ensures { self.new ≡ with self.old (named s.now) }
    {
        self.put_number(s.len() as u64);
        self.put_bytes(s);
    }
}

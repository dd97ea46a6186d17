// A page: text that is written into a lent buffer, from its start on. What does not fit is left out.
ghost use Rattle.std.specs.Prelude.{◌≡◌, [], ◌∷◌, ◌*◌, ◌/◌, ◌<◌, ◌≤◌, length, replicate, take};
ghost use Rattle.texts.specs.Hex.{hex_digit, hex_of};
ghost use Rattle.texts.specs.Written.{Adds, blank, cut, with};

use scan::part::byte_at;
use std::marker::Model;

// The text is the bytes before `end`.
#[derive(Drop)]
pub struct Page<'a> {
    out: &'a mut [u8],
    end: usize,
}

impl<'a> Model for Page<'a> {
    ghost use Rattle.std.specs.Prelude.{◌≤◌, length};
    ghost use Rattle.texts.specs.Written.{Written, up_to};

    ghost Value = { Written };

    ghost view = { λ p. up_to p.out.now p.end };

    ghost invariant = { λ p. p.end ≤ length p.out.now };
}

#[tactic(auto, unfolding(crate::specs::Hex::hex_digit))]
fn digit(n: u8) -> u8
    requires { n < 16 }
    ensures { result ≡ hex_digit n }
{
    if n < 10 { b'0' + n } else { b'a' - 10 + n }
}

// Bytes as two hexadecimal digits each, in lower case.
fn set_hex(out: &mut [u8], s: &[u8])
    requires { length out.old ≡ 2 * length s.now }
    ensures { out.new ≡ hex_of s.now }
{
    for i in 0..s.len() {
        out[2 * i] = digit(s[i] / 16);
        out[2 * i + 1] = digit(s[i] % 16);
    }
}

// Whether a byte, behind 0xC2, ends a control character.
pub fn is_control_end(b: u8) -> bool {
    0x80 <= b && b < 0xA0
}

impl<'a> Page<'a> {
    // A page with nothing on it.
    pub fn new(out: &'a mut [u8]) -> Page<'a>
        ensures { result ≡ blank (length out.old) }
    {
        Page { out, end: 0 }
    }

    // What is written.
    pub fn written(&self) -> &[u8]
        ensures { result.now ≡ self.now.bytes }
    {
        &self.out[..self.end]
    }

    // How many bytes are written.
    pub fn len(&self) -> usize
        ensures { result ≡ length self.now.bytes }
    {
        self.written().len()
    }

    // How many more fit.
    pub fn room(&self) -> usize
        ensures { result ≡ self.now.room }
    {
        self.out.len() - self.end
    }

    // Takes all back but the first bytes.
    pub fn cut(&mut self, n: usize)
        ensures { self.new ≡ cut self.old n }
    {
        self.end = self.end.min(n);
    }

    // One byte.
    pub fn byte(&mut self, b: u8)
        ensures exact { self.new ≡ with self.old (b ∷ []) }
        ensures adds { Adds self.old self.new }
    {
        if self.end < self.out.len() {
            self.out[self.end] = b;
            self.end += 1;
        }
    }

    // Bytes as they are.
    pub fn text(&mut self, s: &[u8])
        ensures exact { self.new ≡ with self.old s.now }
        ensures adds { Adds self.old self.new }
    {
        let n = s.len().min(self.out.len() - self.end);
        self.out[self.end..self.end + n].copy_from_slice(&s[..n]);
        self.end += n;
    }

    // One byte, as often as it fits.
    pub fn repeated(&mut self, b: u8, count: usize)
        ensures exact { self.new ≡ with self.old (replicate count b) }
        ensures adds { Adds self.old self.new }
    {
        let n = count.min(self.out.len() - self.end);
        self.out[self.end..self.end + n].fill(b);
        self.end += n;
    }

    // A number in decimal. Most have one digit.
    pub fn decimal(&mut self, n: u64)
        ensures { Adds self.old self.new }
    {
        if n < 10 {
            self.byte(b'0' + n as u8);
            return;
        }
        let mut digits = [0u8; 20];
        let k = io::decimal(n, &mut digits);
        self.text(&digits[..k]);
    }

    // Bytes as two digits each, of as many as there is room for. The room is looked at once: a test for each digit takes ten times as many
    // instructions.
    pub fn hex(&mut self, s: &[u8])
        ensures exact { self.new ≡ with self.old (hex_of (take (self.old.room / 2) s.now)) }
        ensures adds { Adds self.old self.new }
    {
        let n = s.len().min((self.out.len() - self.end) / 2);
        let to = self.end + 2 * n;
        set_hex(&mut self.out[self.end..to], &s[..n]);
        self.end = to;
    }

    // A byte by its number, behind a text that ends in a brace.
    pub fn escape(&mut self, lead: &[u8], b: u8)
        ensures { Adds self.old self.new }
    {
        let mut digits = [0u8; 16];
        let k = io::hex(u64::from(b), 1, &mut digits);
        self.text(lead);
        self.text(&digits[..k]);
        self.byte(b'}');
    }

    // A control character by its number.
    pub fn control(&mut self, b: u8)
        ensures { Adds self.old self.new }
    {
        self.escape(b"\\u{", b);
    }

    // A byte below 128. Control characters are escaped.
    pub fn ascii(&mut self, b: u8)
        ensures { Adds self.old self.new }
    {
        match b {
            b'\t' => self.text(b"\\t"),
            b'\n' => self.text(b"\\n"),
            b'\r' => self.text(b"\\r"),
            0x00..0x20 | 0x7F => self.control(b),
            _ => self.byte(b),
        }
    }

    // The same in quotes. Quotes and backslashes are escaped too.
    fn ascii_quoted(&mut self, b: u8)
        ensures { Adds self.old self.new }
    {
        match b {
            b'"' => self.text(b"\\\""),
            b'\\' => self.text(b"\\\\"),
            _ => self.ascii(b),
        }
    }

    // One byte of a text in quotes, with those before and behind it. Control characters beyond ASCII have two bytes, the first 0xC2.
    fn byte_quoted(&mut self, before: u8, b: u8, behind: u8)
        ensures { Adds self.old self.new }
    {
        if b < 0x80 {
            self.ascii_quoted(b);
        } else if before == 0xC2 && is_control_end(b) {
            self.control(b);
        } else if b != 0xC2 || !is_control_end(behind) {
            self.byte(b);
        }
    }

    // A text in quotes. Quotes, backslashes and control characters are escaped.
    pub fn quoted(&mut self, s: &[u8])
        ensures { Adds self.old self.new }
    {
        self.byte(b'"');
        let mut before: u8 = 0;
        for i in 0..s.len() {
            let b = s[i];
            self.byte_quoted(before, b, byte_at(s, i + 1));
            before = b;
        }
        self.byte(b'"');
    }
}

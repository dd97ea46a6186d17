// Classes by comparisons, which vector instructions have: no test branches, and none reads the table. So a block of bytes is put to them.
ghost use Rattle.std.specs.Prelude.{◌≡◌, ℕ, Bool, true, ◌||◌, eqb};
ghost use Rattle.scan.specs.Bytes.{is_space, is_letter, is_text, is_plain, is_quoted};
ghost use Rattle.std.specs.List.{list_all};
ghost use Rattle.blocks.specs.Test.{no_blank, no_sign};
ghost use Rattle.blocks.specs.TestLaws.{letter_word};

use scan::byte::within;
use scan::classes as classes;
use scan::classes::Class;

// Space by comparisons.
pub struct Space;

impl Class for Space {
    ghost rule = { is_space };

    #[tactic(auto, unfolding(scan::specs::Bytes::is_space))]
    fn has(b: u8) -> bool {
        (b == 0x20) | (b == 0x09)
    }
}

// A letter; a word's other characters are read one by one.
pub struct Letter;

impl Class for Letter {
    ghost rule = { is_letter };

    fn has(b: u8) -> bool {
        within(0x41, 0x5A, b) | within(0x61, 0x7A, b)
    }
}

// Text by a comparison.
pub struct Text;

impl Class for Text {
    ghost rule = { is_text };

    #[tactic(auto, unfolding(scan::specs::Bytes::is_text))]
    fn has(b: u8) -> bool {
        b != 0x0A
    }
}

// Whether a byte is a space or 0x0A.
#[inline]
pub fn is_blank(b: u8) -> bool
    ensures { result ≡ (eqb b 0x09 || eqb b 0x0A || eqb b 0x20) }
{
    (b == 0x09) | (b == 0x0A) | (b == 0x20)
}

// Whether a byte is `|`, `"` or the backslash.
#[inline]
pub fn is_sign(b: u8) -> bool
    ensures { result ≡ (eqb b 0x7C || eqb b 0x22 || eqb b 0x5C) }
{
    (b == 0x7C) | (b == 0x22) | (b == 0x5C)
}

// All but 0x09, 0x0A and space, at which plain text ends.
struct NoBlank;

impl Class for NoBlank {
    ghost rule = { no_blank };

    fn has(b: u8) -> bool {
        !is_blank(b)
    }
}

// All but `|` and `"`, at which it ends, and the backslash.
struct NoSign;

impl Class for NoSign {
    ghost rule = { no_sign };

    fn has(b: u8) -> bool {
        !is_sign(b)
    }
}

// Plain text by comparisons: by two tests, since one of six comparisons is not compiled to vector instructions.
pub struct Plain;

impl Class for Plain {
    ghost rule = { is_plain };

    #[tactic(auto, using(crate::specs::TestLaws::plain_both))]
    fn has(b: u8) -> bool {
        NoBlank::has(b) & NoSign::has(b)
    }

    #[inline]
    fn all(s: &[u8]) -> bool {
        let mut blank = true;
        let mut sign = true;
        for i in 0..s.len() {
            let b = s[i];
            blank = blank & NoBlank::has(b);
            sign = sign & NoSign::has(b);
        }
        blank & sign
    }
}

// Quoted text by comparisons.
pub struct Quoted;

impl Class for Quoted {
    ghost rule = { is_quoted };

    #[tactic(auto, unfolding(scan::specs::Bytes::is_quoted))]
    fn has(b: u8) -> bool {
        !((b == 0x09) | (b == 0x0A) | (b == 0x5C) | (b == 0x22))
    }
}

// A class whose runs may be long: a block of them is told by a class that vector instructions can test, which has no other bytes. Where no
// run is long, it is told by the class itself.
pub trait Long: Class {
    type Block: Class;

    ghost wider: { (b : ℕ) → Self.Block.rule b ≡ true → Self.rule b ≡ true };
}

impl Long for classes::Space {
    type Block = Space;

    ghost wider = { λ b h. h };
}

impl Long for classes::Word {
    type Block = Letter;

    ghost wider = { letter_word };
}

impl Long for classes::Plain {
    type Block = Plain;

    ghost wider = { λ b h. h };
}

impl Long for classes::Quoted {
    type Block = Quoted;

    ghost wider = { λ b h. h };
}

impl Long for classes::Colon {
    type Block = classes::Colon;

    ghost wider = { λ b h. h };
}

impl Long for classes::Digit {
    type Block = classes::Digit;

    ghost wider = { λ b h. h };
}

impl Long for classes::Mark {
    type Block = classes::Mark;

    ghost wider = { λ b h. h };
}

impl Long for classes::Text {
    type Block = Text;

    ghost wider = { λ b h. h };
}

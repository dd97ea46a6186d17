// The classes of bytes, each by one rule: what the bytes of a run have in common.
ghost use Rattle.std.specs.Prelude.{◌≡◌, ℕ, Bool};
ghost use Rattle.std.specs.List.{list_all};
ghost use Rattle.scan.specs.Bytes.{class_of, Classes, is_space, is_colon, is_digit, is_word, is_mark, is_text, is_plain, is_quoted};

// A class of bytes: its rule, and a test that is equal to it on every byte.
pub trait Class {
    ghost rule: { ℕ → Bool };

    fn has(b: u8) -> bool
        ensures { result ≡ rule b };

    // Whether each byte of a text is of the class. No turn of the loop leaves it, so it is compiled to vector instructions where the test is
    // one of comparisons; the table's is not.
    #[inline]
    fn all(s: &[u8]) -> bool
        ensures { result ≡ list_all rule s.now }
    {
        let mut m = true;
        for i in 0..s.len() {
            m = m & Self::has(s[i]);
        }
        m
    }
}

// The table: entry b is the sum of the weights 1, 2, 4 .. 128 of the classes below, in their order, that byte b is of.
static CLASSES: [u8; 256] = [
    224, 224, 224, 224, 224, 224, 224, 224, 224, 33, 0, 224, 224, 224, 224, 224, 224, 224, 224,
    224, 224, 224, 224, 224, 224, 224, 224, 224, 224, 224, 224, 224, 161, 224, 48, 232, 224, 224,
    232, 240, 224, 224, 232, 224, 224, 224, 240, 224, 244, 244, 244, 244, 244, 244, 244, 244, 244,
    244, 226, 224, 248, 232, 248, 224, 232, 248, 248, 248, 248, 248, 248, 248, 248, 248, 248, 248,
    248, 248, 248, 248, 248, 248, 248, 248, 248, 248, 248, 248, 248, 248, 248, 240, 32, 240, 240,
    224, 240, 248, 248, 248, 248, 248, 248, 248, 248, 248, 248, 248, 248, 248, 248, 248, 248, 248,
    248, 248, 248, 248, 248, 248, 248, 248, 248, 224, 160, 224, 232, 224, 224, 224, 224, 224, 224,
    224, 224, 224, 224, 224, 224, 224, 224, 224, 224, 224, 224, 224, 224, 224, 224, 224, 224, 224,
    224, 224, 224, 224, 224, 224, 224, 224, 224, 224, 224, 224, 224, 224, 224, 224, 224, 224, 224,
    224, 224, 224, 224, 224, 224, 224, 224, 224, 224, 224, 224, 224, 224, 224, 224, 224, 224, 224,
    224, 224, 224, 224, 224, 224, 224, 224, 224, 224, 224, 224, 224, 224, 224, 224, 224, 224, 224,
    224, 224, 224, 224, 224, 224, 224, 224, 224, 224, 224, 224, 224, 224, 224, 224, 224, 224, 224,
    224, 224, 224, 224, 224, 224, 224, 224, 224, 224, 224, 224, 224, 224, 224, 224, 224, 224, 224,
    224, 224, 224, 224, 224, 224, 224, 224, 224,
];

// The table, lent.
pub fn classes() -> &'static [u8; 256]
    ensures { Classes result.now }
{
    &CLASSES
}

// The sum of the weights of a byte's classes.
fn class_of(b: u8) -> u8
    ensures { result ≡ class_of b }
{
    classes()[b as usize]
}

// A space's: 0x20 or 0x09.
pub struct Space;

impl Class for Space {
    ghost rule = { is_space };

    #[tactic(auto, using(crate::proofs::ByteLaws::space_weight))]
    fn has(b: u8) -> bool {
        class_of(b) / 1 % 2 == 1
    }
}

// The colon alone.
pub struct Colon;

impl Class for Colon {
    ghost rule = { is_colon };

    #[tactic(auto, using(crate::proofs::ByteLaws::colon_weight))]
    fn has(b: u8) -> bool {
        class_of(b) / 2 % 2 == 1
    }
}

// A digit's: 0 to 9.
pub struct Digit;

impl Class for Digit {
    ghost rule = { is_digit };

    #[tactic(auto, using(crate::proofs::ByteLaws::digit_weight))]
    fn has(b: u8) -> bool {
        class_of(b) / 4 % 2 == 1
    }
}

// A word's.
pub struct Word;

impl Class for Word {
    ghost rule = { is_word };

    #[tactic(auto, using(crate::proofs::ByteLaws::word_weight))]
    fn has(b: u8) -> bool {
        class_of(b) / 8 % 2 == 1
    }
}

// A mark's.
pub struct Mark;

impl Class for Mark {
    ghost rule = { is_mark };

    #[tactic(auto, using(crate::proofs::ByteLaws::mark_weight))]
    fn has(b: u8) -> bool {
        class_of(b) / 16 % 2 == 1
    }
}

// An argument's: all but 0x0A.
pub struct Text;

impl Class for Text {
    ghost rule = { is_text };

    #[tactic(auto, using(crate::proofs::ByteLaws::text_weight))]
    fn has(b: u8) -> bool {
        class_of(b) / 32 % 2 == 1
    }
}

// What stands for itself in plain text.
pub struct Plain;

impl Class for Plain {
    ghost rule = { is_plain };

    #[tactic(auto, using(crate::proofs::ByteLaws::plain_weight))]
    fn has(b: u8) -> bool {
        class_of(b) / 64 % 2 == 1
    }
}

// What stands for itself in quoted text.
pub struct Quoted;

impl Class for Quoted {
    ghost rule = { is_quoted };

    #[tactic(auto, using(crate::proofs::ByteLaws::quoted_weight))]
    fn has(b: u8) -> bool {
        class_of(b) / 128 % 2 == 1
    }
}

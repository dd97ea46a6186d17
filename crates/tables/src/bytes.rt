// Whether bytes in a row are all of one class.
ghost use Rattle.std.specs.Prelude.{◌≡◌, nat_lt};
ghost use Rattle.std.specs.List.{list_all};
ghost use Rattle.scan.specs.Bytes.{is_letter, is_word};
ghost use Rattle.tables.specs.Kinds.{is_command};

use limits::LAST_COMMAND;
use scan::byte::within;
use scan::classes::Class;

// A command's number.
struct Command;

impl Class for Command {
    ghost rule = { is_command };

    #[tactic(auto, unfolding(crate::specs::Kinds::is_command))]
    fn has(b: u8) -> bool {
        b <= LAST_COMMAND
    }
}

// A number that is below this tells that a byte is of the class.
const BELOW: u8 = 26;

// A class that is told by a number. The greatest of many is found by vector instructions, which a test of many comparisons is not compiled to.
trait Numbered: Class {
    fn number(b: u8) -> u8
        ensures { nat_lt result 26 ≡ Self.Class.rule b };
}

// Whether all are of the class.
fn all_numbered<C: Numbered>(s: &[u8]) -> bool
    ensures { result ≡ list_all C.rule s.now }
{
    let mut m: u8 = 0;
    for i in 0..s.len() {
        m = m.max(C::number(s[i]));
    }
    m < BELOW
}

// A letter's byte.
struct Letter;

impl Class for Letter {
    ghost rule = { is_letter };

    fn has(b: u8) -> bool {
        within(0x41, 0x5A, b) || within(0x61, 0x7A, b)
    }
}

impl Numbered for Letter {
    // A letter's place in the alphabet, capital or not; 26 or more for all other bytes.
    #[tactic(auto, using(crate::specs::AllLaws::letter_by))]
    fn number(b: u8) -> u8 {
        (b - b / 32 % 2 * 32).wrapping_sub(0x41)
    }
}

// A word's byte.
struct Word;

impl Class for Word {
    ghost rule = { is_word };

    fn has(b: u8) -> bool {
        Letter::has(b)
            || b == 0x23
            || b == 0x26
            || b == 0x2A
            || within(0x3C, 0x3E, b)
            || b == 0x40
            || b == 0x7E
    }
}

impl Numbered for Word {
    // 0 for a word's byte.
    fn number(b: u8) -> u8 {
        if Word::has(b) { 0 } else { BELOW }
    }
}

// Whether they are all commands' numbers.
pub fn all_commands(b: &[u8]) -> bool
    ensures { result ≡ list_all is_command b.now }
{
    Command::all(b)
}

// Whether they are all a word's: letters are told most quickly.
pub fn all_words(b: &[u8]) -> bool
    ensures { result ≡ list_all is_word b.now }
{
    all_numbered::<Letter>(b) || all_numbered::<Word>(b)
}

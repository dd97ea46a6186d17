// The sentences of the refusals as rows of bytes, as `spellings` has its words: for each its length, its refusal's number and its bytes.
#![tactic(auto)]

ghost use Rattle.std.specs.Prelude.{◌≡◌};
ghost use Rattle.spellings.specs.Rows.{rows_of};
ghost use Rattle.sentences.specs.Sentences.{sentences as sentences_of};

const SENTENCES: [u8; 515] =
    *b"\x22\x01the line is longer than 1024 bytes\x15\x02the line is not UTF-8\x32\x03the line, or a list or range in it, does not parse\x26\x04a number is above 18446744073709551615\x27\x05the command does not take this argument\x24\x06the command does not take this range\x2e\x07a sum of offsets is above 18446744073709551615\x28\x08the alias is not 1 to 24 word characters\x20\x09the command's number is above 27\x18\x0ano command has this word\x1e\x0bthe command is not implemented\x16\x0cthe store is too short\x30\x0dthere are 32 aliases, and no place for a new one\x1b\x63the bytes are not a session";

// All sentences, by the numbers of their refusals.
pub fn sentences() -> [u8; 515]
    ensures { rows_of result ≡ sentences_of }
{
    SENTENCES
}

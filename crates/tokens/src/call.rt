// The call for tools that highlight a line.
ghost use Rattle.std.specs.Prelude.{◌≡◌, length};
ghost use Rattle.limits.specs.Refusals.{number_of, count_of};
ghost use Rattle.tokens.specs.Through.{tokens_no, tokens_count, tokens_store};

use super::text::put_line;
use layout::bytes::sound;
use layout::lookup::words_of;
use limits::LINE;
use limits::refusal::Refusal;

// A token takes so many bytes.
pub const TOKEN: usize = 5;

// Writes the tokens of a line to the front of the store, and answers how many there are.
pub fn tokens_in(b: &[u8], line: &[u8], store: &mut [u8]) -> Result<usize, Refusal>
    ensures refusal { number_of result ≡ tokens_no b.now line.now (length store.old) }
    ensures count { count_of result ≡ tokens_count b.now line.now (length store.old) }
    ensures store { store.new ≡ tokens_store b.now line.now store.old }
{
    if !sound(b) {
        return Err(Refusal::NotASession);
    }
    if LINE < line.len() {
        return Err(Refusal::LineTooLong);
    }
    if store.len() < TOKEN * line.len() {
        return Err(Refusal::StoreTooShort);
    }
    let n = put_line(store, line, words_of(b));
    Ok(n / TOKEN)
}

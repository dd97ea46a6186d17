// The arguments of a program.
use scan::part::part;
use std::env::FillError;
use std::rt::Env;

// An argument, put at the start of a buffer. One that is not there is empty, and one that does not fit is as long as the buffer.
pub fn argument<'b>(rt: &impl Env, i: usize, into: &'b mut [u8]) -> &'b [u8] {
    match rt.arg(i, into) {
        Ok(n) => part(into, 0, n),
        Err(FillError::TooLong) => into,
        Err(FillError::NotPresent) => &[],
    }
}

// Whether an argument is there, if only an empty one.
pub fn is_given(rt: &impl Env, i: usize) -> bool {
    !matches!(rt.arg(i, &mut []), Err(FillError::NotPresent))
}

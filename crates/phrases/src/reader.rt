// A record, read from its start on. Bytes that are no record are dealt with too: what is read of them is None.
// How many groups of seven bits a number of 64 bits has at most.
const GROUPS: usize = 10;

// What is left to read.
#[derive(Clone, Copy)]
pub struct Reader<'a> {
    rest: &'a [u8],
}

// Whether the last group of a number is in order. In the shortest form it is 0 only if it is the only one; the tenth has one bit of the 64.
fn is_last_group(place: usize, group: u8) -> bool {
    let short = group > 0 || place == 0;
    let fits = place < GROUPS - 1 || group < 2;
    short && fits
}

impl<'a> Reader<'a> {
    // A record of which nothing is read.
    pub fn new(record: &'a [u8]) -> Reader<'a> {
        Reader { rest: record }
    }

    // What is left to read.
    pub fn rest(&self) -> &'a [u8] {
        self.rest
    }

    // A number in its shortest form: groups of seven bits, low group first, 0x80 set on all but the last. Groups that are none are passed
    // over too.
    pub fn number(&mut self) -> Option<u64> {
        let bytes = self.rest;
        let most = bytes.len().min(GROUPS);
        let mut value: u64 = 0;
        for i in 0..most {
            let b = bytes[i];
            value |= u64::from(b % 128) << (7 * i);
            if b < 128 {
                self.rest = &bytes[i + 1..];
                return is_last_group(i, b).then_some(value);
            }
        }
        self.rest = &bytes[most..];
        None
    }

    // A name: its byte count, which is not 0, and its bytes.
    pub fn name(&mut self) -> Option<&'a [u8]> {
        let count = self.number()?;
        if count == 0 || (self.rest.len() as u64) < count {
            return None;
        }
        let (name, rest) = self.rest.split_at(count as usize);
        self.rest = rest;
        Some(name)
    }
}

// The bytes of a name that stands alone, behind its byte count, whatever form that has.
pub fn name_of(written: &[u8]) -> &[u8] {
    let mut record = Reader::new(written);
    let _ = record.number();
    record.rest()
}

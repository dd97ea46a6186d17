// What `reading` answers to a text that is a whole reading (op 7), as the oracle writes it. Ranges and lists have crates of their own.
#![tactic(auto)]

use range_answers::put_range;
use ranges::range::RangeRead;
use reading::line::CommandDescription;
use scan::part::part;
use vectors::answer::Answer;

fn put_optional_range(out: &mut Answer, text: &[u8], r: RangeRead) {
    match r {
        Ok(Some((g, _))) => {
            out.put_number(1);
            put_range(out, text, g);
        }
        Ok(None) => out.put_number(0),
        Err(_) => (),
    }
}

fn put_reading(out: &mut Answer, text: &[u8], d: CommandDescription) {
    put_optional_range(out, text, d.range);
    out.put_name(part(text, d.word, d.end));
    out.put_number(u64::from(d.bang));
    out.put_name(reading::line::argument(text, d));
}

pub fn answer_reading(text: &[u8], out: &mut Answer) {
    match reading::line::parse(text) {
        Ok(d) => {
            out.put_number(0);
            put_reading(out, text, d);
        }
        Err(why) => out.refuse(why),
    }
}

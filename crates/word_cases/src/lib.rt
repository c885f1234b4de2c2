// Lines and wishes in words at the edges of what can be: read, refused, printed.
#![tactic(auto)]

#[cfg(test)]
mod tests {
    use std::alloc::{AllocError, Global};
    use std::test::Fail;
    use words::{Words, parse_line, parse_wish};

    // A row each: what is typed, and the line that is read from it as it is printed, or the cause.
    const LINES: &str = "museums 1 -> museums 1
museums 200 -> museums 200
museums 3,4 -> museums 3,4
museums 8,7,6,5,4,3,2,1 -> museums 8,7,6,5,4,3,2,1
museums 1,2,3,4,5,6,7,8,9 -> more than 8 museums
museums -> a word is missing
museums 0 -> museums have numbers from 1 to 200
museums 1,201 -> museums have numbers from 1 to 200
museums 256 -> the number is too large
museums 3, -> not a number
museums 3, 4 -> too many words
museums 3;4 -> not a number
days 10-20 -> days 10-20
days 0-0 -> days 0-0
days 0-65535 -> days 0-65535
days 20-10 -> the span ends before it begins
days 0-65536 -> the number is too large
days 10 -> a span is two numbers with - between them
days -10 -> not a number
days 1-2-3 -> not a number
minutes 540-1020 -> minutes 540-1020
minutes 1439-1440 -> minutes 1439-1440
persons 0 -> persons 0
persons 255 -> persons 255
persons 256 -> the number is too large
persons 00000000000000000002 -> persons 2
persons 99999999999999999999 -> the number is too large
persons +2 -> not a number
persons 2x -> not a number
name -> name
name ada -> name ada
name abcdefghijklmnopqrstuvwxyzabcdef -> name abcdefghijklmnopqrstuvwxyzabcdef
name abcdefghijklmnopqrstuvwxyzabcdefg -> a name has at most 32 letters
name Ada -> a name has only the letters a to z
name ad\u{e4} -> a name has only the letters a to z
name ada lace -> too many words
else 0 -> else 0
else 4095 -> else 4095
else 4096 -> keys have numbers up to 4095
else -> a word is missing
else 5 6 -> too many words
 -> a word is missing
 \t\r -> a word is missing
 \tmuseums  003,4\r -> museums 3,4
museum 3 -> unknown word
Days 1-2 -> unknown word
day -> unknown word";

    // The same of wishes, of which some are out of range.
    const WISHES: &str =
        "museum 3 day 9 minute 600 persons 2 name ada -> museum 3 day 9 minute 600 persons 2 name ada
museum 1 day 1 minute 0 persons 1 -> museum 1 day 1 minute 0 persons 1
museum 200 day 65535 minute 1439 persons 200 name -> museum 200 day 65535 minute 1439 persons 200
 museum\t03 day 09  minute 0 persons 2  -> museum 3 day 9 minute 0 persons 2
museum 1 day 1 minute 0 persons 1 name abcdefghijklmnopqrstuvwxyzabcdef -> museum 1 day 1 minute 0 persons 1 name abcdefghijklmnopqrstuvwxyzabcdef
museum 1 day 1 minute 0 persons 1 name abcdefghijklmnopqrstuvwxyzabcdefg -> out of range
museum 1 day 1 minute 0 persons 1 name Ada -> out of range
museum 0 day 1 minute 0 persons 1 -> out of range
museum 201 day 1 minute 0 persons 1 -> out of range
museum 255 day 1 minute 0 persons 1 -> out of range
museum 256 day 1 minute 0 persons 1 -> the number is too large
museum 1 day 0 minute 0 persons 1 -> out of range
museum 1 day 65536 minute 0 persons 1 -> the number is too large
museum 1 day 1 minute 1440 persons 1 -> out of range
museum 1 day 1 minute 0 persons 0 -> out of range
museum 1 day 1 minute 0 persons 201 -> out of range
museum 1 day 1 minute 0 -> a word is missing
museum 1 day 1 minute persons 1 -> not a number
museum 1 minute 0 day 1 persons 1 -> unknown word
museum 1 day 1 minute 0 persons 1 ada -> unknown word
museum 1 day 1 minute 0 persons 1 name ada lace -> too many words
 -> a word is missing";

    fn line_said(heap: Global, text: &str) -> Result<String, AllocError> {
        match parse_line(text) {
            Ok(line) => format!(in heap; "{}", Words(line)),
            Err(cause) => format!(in heap; "{cause}"),
        }
    }

    // The like of it in `scripts_tests` prints a wish among other things; a crate for both would be longer than the two.
    fn wish_said(heap: Global, text: &str) -> Result<String, AllocError> {
        let raw = match parse_wish(text) {
            Ok(raw) => raw,
            Err(cause) => return format!(in heap; "{cause}"),
        };
        match raw.in_range() {
            Some(wish) => format!(in heap; "{}", Words(wish)),
            None => String::from_str(heap, "out of range"),
        }
    }

    // Each table has a loop of its own: a function for both would need an `Abort` of its own.
    #[test]
    fn lines_in_words(rt: HostRuntime) -> Result<(), Fail> {
        for row in LINES.split('\n') {
            let (text, said) = row.split_once(" -> ").ok_or("a row has no arrow")?;
            assert_eq!(rt; line_said(rt.alloc(), text)?.as_str(), said, "{}", row);
        }
        Ok(())
    }

    #[test]
    fn wishes_in_words(rt: HostRuntime) -> Result<(), Fail> {
        for row in WISHES.split('\n') {
            let (text, said) = row.split_once(" -> ").ok_or("a row has no arrow")?;
            assert_eq!(rt; wish_said(rt.alloc(), text)?.as_str(), said, "{}", row);
        }
        Ok(())
    }
}

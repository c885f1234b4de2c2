// The reading of scripts, on examples.
#![tactic(auto)]

#[cfg(test)]
mod summary;

#[cfg(test)]
mod tests {
    use crate::summary::summary;
    use std::test::Fail;

    // Each script, and what it comes to.
    const SCRIPTS: [(&str, &str); 11] = [
        ("", ""),
        ("\n \t\r\n#house s\n", ""),
        ("house s", "1 house s\n"),
        (" \thouse \t s \n\n", "1 house s\n"),
        ("# a comment\n\nhouse s# another\n#", "3 house s\n"),
        ("\r\nhouse s\r\n#\r\n", "2 house s\n"),
        ("House s", "1: unknown word"),
        ("\nhouses s\nhouse", "2: unknown word"),
        ("house # s", "1: a word is missing"),
        ("\n\nhouse s t", "3: too many words"),
        (
            "house s\n\n# once more\nhouse s\nhouse",
            "1 house s\n4: house must come first",
        ),
    ];

    // Statements after `house`, and what each comes to.
    const STATEMENTS: &str = "key 5 to ada -> 2 key 5 to ada
key 04095\tto a:b -> 2 key 4095 to a:b
key 4096 to ada -> 2: keys have numbers up to 4095
key -5 to ada -> 2: not a number
key 5 for ada -> 2: unknown word
key 5 to -> 2: a word is missing
key 5 to ada lace -> 2: too many words
key -> 2: a word is missing
ticket t = 7: museums 3,4 to ada -> 2 ticket t = 7: museums 3,4 to ada
ticket t = 4294967295 : else 5;persons 2 ; name  to to  ada  -> 2 ticket t = 4294967295: else 5; persons 2; name to to ada
ticket t = 7: name;name to a;b -> 2 ticket t = 7: name; name to a;b
ticket t = 7: museums 3:4 to ada -> 2: not a number
ticket t = 4294967296: persons 2 to ada -> 2: the number is too large
ticket t = x: persons 2 to ada -> 2: not a number
ticket t = 7 persons 2 to ada -> 2: a word is missing
ticket t: persons 2 to ada -> 2: a word is missing
ticket t is 7: persons 2 to ada -> 2: unknown word
ticket t = 7 8: persons 2 to ada -> 2: too many words
ticket t = 7: to ada -> 2: a word is missing
ticket t = 7: persons 2; to ada -> 2: a word is missing
ticket t = 7: persons 2 by ada -> 2: unknown word
ticket t = 7: persons 2 ada -> 2: unknown word
ticket t = 7: ada -> 2: a word is missing
ticket t = 7: -> 2: a word is missing
ticket t = 7: person 2 to ada -> 2: unknown word
ticket t = 7: persons 2; days 20-10 to ada -> 2: the span ends before it begins
yes y = 5: persons 2; days 1-2 by ada -> 2 yes y = 5: persons 2; days 1-2 by ada
yes y = 5: by ada -> 2 yes y = 5:  by ada
yes y = 5:by ada -> 2 yes y = 5:  by ada
yes y = 5: else 6 by ada -> 2 yes y = 5: else 6 by ada
yes y = 4096: by ada -> 2: keys have numbers up to 4095
yes y = 5: ; by ada -> 2: a word is missing
yes y = 5: to ada -> 2: unknown word
add x = t: persons 2 by ada -> 2 add x = t: persons 2 by ada
add x = t: by ada -> 2: a word is missing
add x t: persons 2 by ada -> 2: unknown word
tie z = y to t by ada -> 2 tie z = y to t by ada
tie z = y by ada to t -> 2: unknown word
tie z = y to t -> 2: a word is missing
give t from ada to bob -> 2 give t from ada to bob
give key 7 from ada to bob -> 2 give key 7 from ada to bob
give key from ada to bob -> 2: not a number
give key -> 2: a word is missing
give t to bob from ada -> 2: unknown word
give t from ada -> 2: a word is missing
wish ada: museum 3 day 9 minute 600 persons 2 name ada -> 2 wish ada: museum 3 day 9 minute 600 persons 2 name ada
wish ada :museum 3 day 9 minute 600 persons 0 -> 2 wish ada: out of range
wish ada: museum 300 day 9 minute 600 persons 2 -> 2: the number is too large
wish ada bob: museum 3 day 9 minute 600 persons 2 -> 2: too many words
wish: museum 3 day 9 minute 600 persons 2 -> 2: unknown word
wish ada -> 2: a word is missing
show ada t: museum 3 day 9 minute 600 persons 2 -> 2 show ada t: museum 3 day 9 minute 600 persons 2
show ada t z  w: museum 3 day 9 minute 600 persons 2 -> 2 show ada t z w: museum 3 day 9 minute 600 persons 2
show ada: museum 3 day 9 minute 600 persons 2 -> 2: a word is missing
show ada t: museum 3 day 9 minute 600 -> 2: a word is missing
house s -> 2: house must come first
house -> 2: a word is missing
hose s -> 2: unknown word";

    #[test]
    fn summaries(rt: HostRuntime) -> Result<(), Fail> {
        for (text, said) in SCRIPTS {
            assert_eq!(rt; summary(rt.alloc(), text)?.as_str(), said, "{}", text);
        }
        Ok(())
    }

    #[test]
    fn statements(rt: HostRuntime) -> Result<(), Fail> {
        let heap = rt.alloc();
        for row in STATEMENTS.split('\n') {
            let (text, said) = row.split_once(" -> ").ok_or("a row has no arrow")?;
            let text = format!(in heap; "house s\n{text}")?;
            let said = format!(in heap; "1 house s\n{said}")?;
            let read = summary(heap, text.as_str())?;
            assert_eq!(rt;
                read.as_str().trim_end_matches('\n'),
                said.as_str(),
                "{}",
                row
            );
        }
        Ok(())
    }

    // A statement before `house` can't be read, and one that can't be read by itself is told as that.
    #[test]
    fn before_house(rt: HostRuntime) -> Result<(), Fail> {
        let heap = rt.alloc();
        let early = summary(heap, "\nkey 5 to ada\nhouse s")?;
        assert_eq!(rt; early.as_str(), "2: house must come first");
        let unread = summary(heap, "key x to ada\nhouse s")?;
        assert_eq!(rt; unread.as_str(), "1: not a number");
        Ok(())
    }
}

// The reading of scripts, on examples.
#![tactic(auto)]

#[cfg(test)]
mod tests {
    use script::{Statement, read_script};
    use std::alloc::{AllocError, Global};
    use std::test::Fail;

    // The statements with their lines' numbers, and the fault. The like of it in `scripts_tests` speaks of other statements; a
    // crate for both would be longer than the two.
    fn summary(heap: Global, text: &str) -> Result<String, AllocError> {
        let script = read_script(heap, text)?;
        let mut said = String::new(heap);
        for numbered in script.statements.iter() {
            let line = numbered.line;
            let Statement::House(seed) = &numbered.statement;
            said.push_str(format!(in heap; "{line} {seed}; ")?.as_str())?;
        }
        if let Some(fault) = script.fault {
            said.push_str(format!(in heap; "{fault}")?.as_str())?;
        }
        Ok(said)
    }

    // Each script, and what it comes to.
    const SCRIPTS: [(&str, &str); 11] = [
        ("", ""),
        ("\n \t\r\n#house s\n", ""),
        ("house s", "1 s; "),
        (" \thouse \t s \n\n", "1 s; "),
        ("# a comment\n\nhouse s# another\n#", "3 s; "),
        ("\r\nhouse s\r\n#\r\n", "2 s; "),
        ("House s", "1: unknown word"),
        ("\nhouses s\nhouse", "2: unknown word"),
        ("house # s", "1: a word is missing"),
        ("\n\nhouse s t", "3: too many words"),
        (
            "house s\n\n# once more\nhouse s\nhouse",
            "1 s; 4: house must come first",
        ),
    ];

    #[test]
    fn summaries(rt: HostRuntime) -> Result<(), Fail> {
        for (text, said) in SCRIPTS {
            assert_eq!(rt; summary(rt.alloc(), text)?.as_str(), said);
        }
        Ok(())
    }
}

// Examples of script lines, as tests.
#![tactic(auto)]

#[cfg(test)]
mod tests {
    use script::{Act, Line, read_line};
    use std::alloc::{AllocError, Global};
    use std::test::Fail;

    const LINES: [(&str, &str); 24] = [
        ("", "empty"),
        (" \t\r", "empty"),
        ("# feed 90", "empty"),
        ("feed", "feed []"),
        ("feed 90 3C 64", "feed [144, 60, 100]"),
        ("\tfeed  903c64 fF# on\r", "feed [144, 60, 100, 255]"),
        ("feed 9", "unreadable"),
        ("feed 90 3", "unreadable"),
        ("feed 9g", "unreadable"),
        ("feed90", "unreadable"),
        ("set 0 1 2", "set 0 1 2"),
        (
            "set 4294967295 007 -2147483648\r",
            "set 4294967295 7 -2147483648",
        ),
        ("set 4294967296 0 0", "unreadable"),
        ("set 0 0 2147483647", "set 0 0 2147483647"),
        ("set 0 0 2147483648", "unreadable"),
        ("set 0 0 -2147483649", "unreadable"),
        ("set 0 -1 0", "unreadable"),
        ("set 0 0 -", "unreadable"),
        ("set 0 0", "unreadable"),
        ("set 0 0 0 0", "unreadable"),
        ("tally # now", "tally"),
        ("tally 1", "unreadable"),
        ("close", "close"),
        ("Close", "unreadable"),
    ];

    fn shown(heap: Global, line: &Line) -> Result<String, AllocError> {
        match line {
            Line::Empty => String::from_str(heap, "empty"),
            Line::Act(Act::Feed(bytes)) => format!(in heap; "feed {bytes:?}"),
            Line::Act(Act::Set { depth, item, value }) => format!(in heap;
                "set {depth} {item} {value}"
            ),
            Line::Act(Act::Tally) => String::from_str(heap, "tally"),
            Line::Act(Act::Close) => String::from_str(heap, "close"),
            Line::Unreadable => String::from_str(heap, "unreadable"),
        }
    }

    #[test]
    fn lines(rt: HostRuntime) -> Result<(), Fail> {
        for (line, expected) in LINES {
            let read = read_line(rt.alloc(), line.as_bytes())?;
            let text = shown(rt.alloc(), &read)?;
            assert_eq!(rt; text.as_str(), expected);
        }
        Ok(())
    }
}

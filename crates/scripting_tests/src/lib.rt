// A console's answers, as a test.
#![tactic(auto)]

#[cfg(test)]
mod tests {
    use script::{Line, read_line};
    use scripting::console::Console;
    use scripting::replies::reply;
    use std::fmt;
    use std::test::Fail;

    // The shift moves while a key is down, a key is struck again through it, and settings are refused.
    const SCRIPT: [&str; 10] = [
        "feed 90 3C 64 # key 60 down",
        "set 0 0 12",
        "feed 90 30 50",
        "feed 80 3C 40",
        "feed 80 30 40",
        "set 0 1 0",
        "set 0 0 49",
        "set 9 0 0",
        "organ",
        "tally",
    ];

    const ANSWERS: &str =
        "ok\nok\nok\nok\nok\ndenied 7 0\ndenied 8 0\ndenied 6 5\nerror line 9: cannot be read\ntally count=12 note_ons=2 taken=2 denied=0 returned=2 stray=0 passed=0 first=none\n";

    const WRITTEN: [u8; 12] = [
        0x90, 0x3C, 0x64, 0x80, 0x3C, 0x40, 0x90, 0x3C, 0x50, 0x80, 0x3C, 0x40,
    ];

    // Answers the lines in turn, up to the first that fails.
    fn reply_all(
        console: &mut Console,
        text: &mut String,
        lines: &[Line],
    ) -> Result<(), fmt::Error> {
        for (i, line) in lines.iter().enumerate() {
            reply(console, text, i + 1, line)?;
        }
        Ok(())
    }

    #[test]
    fn shift_moves_while_a_key_is_down(rt: HostRuntime) -> Result<(), Fail> {
        let bytes = vec![in rt.alloc(); 0u8; 64]?;
        let mut lines = Vec::new(rt.alloc());
        for line in SCRIPT {
            lines.push(read_line(rt.alloc(), line.as_bytes())?)?;
        }
        // A console must be closed, so nothing may leave early while it is open.
        let mut console = Console::open(bytes);
        let mut text = String::new(rt.alloc());
        let answered = reply_all(&mut console, &mut text, &lines);
        let closed = console.close();
        answered?;
        assert_eq!(rt; text.as_str(), ANSWERS);
        assert_eq!(rt; closed.written, 12);
        assert_eq!(rt; closed.written_bytes(), WRITTEN.as_slice());
        Ok(())
    }
}

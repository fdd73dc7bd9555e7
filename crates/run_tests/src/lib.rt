// Examples of runs, as tests.
#![tactic(auto)]

#[cfg(test)]
mod tests {
    use playing::log;
    use playing::text::text;
    use run::{Run, TooManyBytes};
    use sink::calls::Setting;
    use sink::fault::{Cause, LayerFault};
    use sink::sink::Sink;
    use std::test::Fail;
    use transposer::transposer::Transposer;
    use voice_log::line::Line;
    use voice_log::log::VoiceLog;

    // The old ticket of a key is released before its new start, which may then be denied.
    #[test]
    fn second_note_on_denied(rt: HostRuntime) -> Result<(), Fail> {
        let lines = vec![in rt.alloc(); Line::BLANK; 3]?;
        let logged = log(&[0x90, 60, 100, 60, 90, 0x80, 60, 64], lines);
        let shown = text(rt.alloc(), logged.written_lines())?;
        assert_eq!(rt; shown.as_str(), "2 1 0 0 60 100\n4 2 0 0 60 64\n");
        let tally = logged.tally;
        assert_eq!(rt; (tally.count, tally.note_ons, tally.taken), (8, 2, 1));
        assert_eq!(rt; (tally.denied, tally.returned, tally.stray), (1, 1, 1));
        let first = tally.first.ok_or("no denial")?;
        assert_eq!(rt; (first.place, first.channel, first.key), (4, 0, 60));
        assert!(rt; matches!(first.fault, LayerFault::Below(Cause::NoSpace)));
        Ok(())
    }

    // With 128 keys held a further one is denied, and a held one struck again is taken.
    #[test]
    fn full_hands(rt: HostRuntime) -> Result<(), Fail> {
        let lines = vec![in rt.alloc(); Line::BLANK; 1000]?;
        let (mut run, slip) = Run::open(Transposer::new(VoiceLog::new(lines)));
        for key in 0..128u8 {
            let _ = run.feed(&[0x90, key, 1]);
        }
        let _ = run.feed(&[0x91, 0, 1, 0x90, 5, 2]);
        let before = run.tally();
        let (after, _) = run.close(slip);
        assert_eq!(rt; (before.taken, before.denied, before.returned), (129, 1, 1));
        assert_eq!(rt; (after.taken, after.denied, after.returned), (129, 1, 129));
        let first = after.first.ok_or("no denial")?;
        assert!(rt; matches!(first.fault, LayerFault::Below(Cause::AllOut)));
        assert_eq!(rt; (first.place, first.channel, first.key), (386, 1, 0));
        Ok(())
    }

    // A stream gives the same log wherever it is cut, and settings act at the place reached.
    #[test]
    fn cut_anywhere(rt: HostRuntime) -> Result<(), Fail> {
        let bytes = [
            0x90, 60, 100, 0xB0, 64, 127, 0x80, 60, 64, 62, 0x91, 62, 0, 0x91, 62, 9, 0xB1, 123, 0,
            0xC0, 1, 0x90, 1, 2, 0xFF,
        ];
        let whole = log(&bytes, vec![in rt.alloc(); Line::BLANK; 64]?);
        let expected = text(rt.alloc(), whole.written_lines())?;
        for cut in 0..bytes.len() {
            let (mut run, slip) = Run::open(Transposer::new(VoiceLog::new(
                vec![in rt.alloc(); Line::BLANK; 64]?,
            )));
            let _ = run.feed(&bytes[0..cut]);
            let set = run.set(Setting {
                depth: 0,
                item: 0,
                value: 0,
            });
            let _ = run.feed(&bytes[cut..]);
            let (tally, stack) = run.close(slip);
            let (lines, written) = stack.finish().finish();
            assert!(rt; set.is_ok() && tally.passed == 1 && written <= lines.len());
            let shown = text(rt.alloc(), &lines[0..written])?;
            assert_eq!(rt; shown.as_str(), expected.as_str());
        }
        Ok(())
    }

    // The refusal of too many bytes has a number of its own.
    #[test]
    fn refusal_number(rt: HostRuntime) {
        assert_eq!(rt; TooManyBytes.number(), 9);
    }
}

// Examples of reading and listing, as tests.
#![tactic(auto)]

#[cfg(test)]
mod tests {
    use listing::Listing;
    use reader::{Item, Message, Piece, Reader, State};
    use std::test::Fail;

    // One status byte for two notes.
    #[test]
    fn running_status(rt: HostRuntime) {
        let mut reader = Reader::new();
        let mut piece = Piece::new(&[0x90, 0x3C, 0x64, 0x3E, 0x50]);
        let first = reader.next(&mut piece);
        assert!(rt;
            matches!(
                first,
                Some(Item::Message {
                    place: 2,
                    message: Message::NoteOn {
                        channel: 0,
                        key: 60,
                        velocity: 100
                    }
                })
            )
        );
        let second = reader.next(&mut piece);
        assert!(rt;
            matches!(
                second,
                Some(Item::Message {
                    place: 4,
                    message: Message::NoteOn {
                        channel: 0,
                        key: 62,
                        velocity: 80
                    }
                })
            )
        );
        assert!(rt; reader.next(&mut piece).is_none());
        assert!(rt; matches!(reader.state(), State::Channel { status: 0x90 }));
    }

    // A timing clock in the middle of a message.
    #[test]
    fn clock_inside(rt: HostRuntime) {
        let mut reader = Reader::new();
        let mut piece = Piece::new(&[0x90, 0x3C, 0xF8, 0x64]);
        let first = reader.next(&mut piece);
        assert!(rt;
            matches!(
                first,
                Some(Item::Message {
                    place: 2,
                    message: Message::RealTime { byte: 0xF8 }
                })
            )
        );
        let second = reader.next(&mut piece);
        assert!(rt;
            matches!(
                second,
                Some(Item::Message {
                    place: 3,
                    message: Message::NoteOn {
                        channel: 0,
                        key: 60,
                        velocity: 100
                    }
                })
            )
        );
        assert!(rt; reader.next(&mut piece).is_none());
    }

    // An exclusive broken off by a Note-on.
    #[test]
    fn exclusive_broken(rt: HostRuntime) {
        let mut reader = Reader::new();
        let mut piece = Piece::new(&[0xF0, 0x7D, 0x90, 0x3C, 0x64]);
        let first = reader.next(&mut piece);
        assert!(rt;
            matches!(
                first,
                Some(Item::Message {
                    place: 0,
                    message: Message::ExclusiveBegun
                })
            )
        );
        let second = reader.next(&mut piece);
        assert!(rt;
            matches!(
                second,
                Some(Item::Part {
                    place: 1,
                    bytes: [0x7D]
                })
            )
        );
        let third = reader.next(&mut piece);
        assert!(rt;
            matches!(
                third,
                Some(Item::Message {
                    place: 2,
                    message: Message::ExclusiveEnded { whole: false }
                })
            )
        );
        let fourth = reader.next(&mut piece);
        assert!(rt;
            matches!(
                fourth,
                Some(Item::Message {
                    place: 4,
                    message: Message::NoteOn {
                        channel: 0,
                        key: 60,
                        velocity: 100
                    }
                })
            )
        );
        assert!(rt; reader.next(&mut piece).is_none());
    }

    // Each state with each class of bytes.
    #[test]
    fn every_state(rt: HostRuntime) -> Result<(), Fail> {
        let rows: [(&[u8], &str); 26] = [
            (&[], ""),
            // Idle
            (&[0x40], "0 Stray\n"),
            (&[0xF7], "0 Stray\n"),
            (
                &[0xF6, 0xF4, 0xF5],
                "0 Tune-request\n1 Undefined\n2 Undefined\n",
            ),
            (
                &[0xF8, 0xF9, 0xFD, 0xFE, 0xFF],
                "0 Real-time 248\n1 Undefined\n2 Undefined\n3 Real-time 254\n4 Reset\n",
            ),
            // Channel
            (
                &[0xC1, 5, 6, 0xD2, 7],
                "1 Program 1 5\n2 Program 1 6\n4 Channel-pressure 2 7\n",
            ),
            (&[0x90, 0xF7, 0x40], "1 Stray\n2 Stray\n"),
            (&[0x90, 0xFF, 0x40], "1 Reset\n2 Stray\n"),
            (&[0x90, 0xF1, 0x40, 0x40], "2 Quarter-frame 64\n3 Stray\n"),
            // Half
            (
                &[0x81, 60, 10, 61, 0],
                "2 Note-off 1 60 10\n4 Note-off 1 61 0\n",
            ),
            (
                &[0x9F, 60, 1, 60, 0],
                "2 Note-on 15 60 1\n4 Note-off 15 60 64\n",
            ),
            (
                &[0xA0, 60, 0, 0xB0, 7, 127],
                "2 Key-pressure 0 60 0\n5 Control 0 7 127\n",
            ),
            (
                &[0xE0, 0, 0, 0, 64, 127, 127],
                "2 Bend 0 -8192\n4 Bend 0 0\n6 Bend 0 8191\n",
            ),
            (&[0x90, 60, 0x91, 60, 5], "2 Cut\n4 Note-on 1 60 5\n"),
            (&[0x90, 60, 0xF0], "2 Cut\n2 Exclusive-begun\n"),
            (&[0x90, 60, 0xF7], "2 Cut\n2 Stray\n"),
            (&[0x90, 60, 0xFF, 5], "2 Reset\n3 Stray\n"),
            (&[0x90, 60, 0xF9, 5], "2 Undefined\n3 Note-on 0 60 5\n"),
            // Common
            (&[0xF2, 1, 2, 3], "2 Song-position 257\n3 Stray\n"),
            (&[0xF3, 9, 9], "1 Song-select 9\n2 Stray\n"),
            (&[0xF1, 0xF6], "1 Tune-request\n"),
            (&[0xF2, 1, 0x80], "2 Cut\n"),
            // Exclusive
            (
                &[0xF0, 0xF7],
                "0 Exclusive-begun\n1 Exclusive-ended whole\n",
            ),
            (
                &[0xF0, 0x7D, 0xF8, 0x0A, 0xF7],
                "0 Exclusive-begun\n1 Exclusive-part 7D\n2 Real-time 248\n3 Exclusive-part 0A\n4 Exclusive-ended whole\n",
            ),
            (
                &[0xF0, 1, 2, 0xF0],
                "0 Exclusive-begun\n1 Exclusive-part 0102\n3 Exclusive-ended not-whole\n3 Exclusive-begun\n",
            ),
            (
                &[0xF0, 1, 0xFF, 2],
                "0 Exclusive-begun\n1 Exclusive-part 01\n2 Reset\n3 Stray\n",
            ),
        ];
        for (bytes, expected) in rows {
            let text = Listing::new().list(rt.alloc(), bytes)?;
            assert_eq!(rt; text.as_str(), expected);
        }
        Ok(())
    }

    // The state and the places last from piece to piece, wherever a stream is cut.
    #[test]
    fn cut_anywhere(rt: HostRuntime) -> Result<(), Fail> {
        let bytes = [
            0x90, 60, 100, 62, 0xF8, 80, 0xF2, 1, 2, 0xE3, 0, 64, 0x90, 60, 0xF7, 0xF0, 0xF7,
        ];
        let whole = Listing::new().list(rt.alloc(), &bytes)?;
        for cut in 0..bytes.len() {
            let mut listing = Listing::new();
            let mut text = listing.list(rt.alloc(), &bytes[0..cut])?;
            let rest = listing.list(rt.alloc(), &bytes[cut..])?;
            text.push_str(rest.as_str())?;
            assert_eq!(rt; text.as_str(), whole.as_str());
        }
        Ok(())
    }

    // A run of an exclusive's data bytes that is cut comes in two parts.
    #[test]
    fn part_cut(rt: HostRuntime) -> Result<(), Fail> {
        let mut listing = Listing::new();
        let first = listing.list(rt.alloc(), &[0xF0, 1, 2])?;
        assert_eq!(rt;
            first.as_str(),
            "0 Exclusive-begun\n1 Exclusive-part 0102\n"
        );
        let second = listing.list(rt.alloc(), &[3, 0xF7])?;
        assert_eq!(rt;
            second.as_str(),
            "3 Exclusive-part 03\n4 Exclusive-ended whole\n"
        );
        Ok(())
    }

    // Places are numbered from anywhere, as long as the place behind the last byte is a 64-bit number.
    #[test]
    fn last_places(rt: HostRuntime) {
        let bytes = [0xF6, 0xF6];
        let mut piece = Piece::new(&bytes);
        assert!(rt; piece.number_from(u64::MAX - 1).is_err());
        assert!(rt; piece.number_from(u64::MAX - 2).is_ok());
        let mut reader = Reader::new();
        let _ = reader.next(&mut piece);
        let last = reader.next(&mut piece);
        assert!(rt;
            matches!(
                last,
                Some(Item::Message {
                    place: 0xFFFF_FFFF_FFFF_FFFE,
                    message: Message::TuneRequest
                })
            )
        );
        assert!(rt; piece.number_from(u64::MAX).is_ok());
    }
}

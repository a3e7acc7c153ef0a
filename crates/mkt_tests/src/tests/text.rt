// The lines, words, numbers and times of a text, and its faults.
use mkt_base::{Moment, Side};
use mkt_io::{
    LineFault, Lines, Piece, TextFault, Words, checked_words, next_number, number_in, number_word,
    printed_moments_read_back, side_of, time_word, too_long,
};

fn is_line(piece: Piece<'_>, want_number: u32, want: &str) -> bool {
    match piece {
        Piece::Line { number, text } => number == want_number && text == want.as_bytes(),
        Piece::TooLong(_) | Piece::End => false,
    }
}

#[test]
fn a_text_has_its_lines(rt: HostRuntime) {
    for (text, first, second) in [
        ("", None, None),
        ("\n", Some(""), None),
        ("a", Some("a"), None),
        ("a\n", Some("a"), None),
        ("a\r\nb\r", Some("a"), Some("b")),
        ("\r\r\n", Some("\r"), None),
        ("\n b", Some(""), Some(" b")),
    ] {
        assert!(rt; text.len() < 10);
        let mut lines = Lines::new(text.as_bytes());
        for (number, want) in [(1, first), (2, second)] {
            if let Some(want) = want {
                assert!(rt; is_line(lines.next(), number, want), "at {text:?}");
            }
        }
        assert!(rt; matches!(lines.next(), Piece::End), "at {text:?}");
    }
}

#[test]
fn a_long_line_is_told(rt: HostRuntime) {
    let mut text = [b'a'; 404];
    text[200] = b'\n';
    text[402] = b'\n';
    let mut lines = Lines::new(&text);
    assert!(rt; matches!(lines.next(), Piece::Line { number: 1, text } if text.len() == 200));
    assert!(rt; matches!(lines.next(), Piece::TooLong(2)));
    assert!(rt; is_line(lines.next(), 3, "a"));
    assert!(rt; matches!(lines.next(), Piece::End));
}

#[test]
fn a_line_has_its_words(rt: HostRuntime) {
    for (line, first, second) in [
        ("", None, None),
        (" \t ", None, None),
        ("one", Some("one"), None),
        ("\tone  two ", Some("one"), Some("two")),
    ] {
        let mut words = Words::new(line.as_bytes());
        assert_eq!(rt; words.next(), first.map(str::as_bytes), "at {line:?}");
        assert_eq!(rt; words.next(), second.map(str::as_bytes), "at {line:?}");
        assert_eq!(rt; words.wanted(), Err(LineFault::Word), "at {line:?}");
        assert_eq!(rt; words.end(), Ok(()), "at {line:?}");
    }
    assert_eq!(rt; Words::new(b" more").end(), Err(LineFault::Word));
}

#[test]
fn a_word_is_a_number(rt: HostRuntime) {
    for (word, want) in [
        ("0", Some(0)),
        ("7", Some(7)),
        ("00", None),
        ("01", None),
        ("+1", None),
        ("1a", None),
        ("4294967295", Some(4_294_967_295)),
        ("4294967296", None),
        ("9999999999", None),
        ("10000000000", None),
        ("", None),
    ] {
        assert_eq!(rt; number_word(word.as_bytes()), want, "at {word:?}");
    }
    for (low, high, want) in [
        (7, 7, Ok(7)),
        (8, 9, Err(LineFault::Number)),
        (0, 6, Err(LineFault::Number)),
    ] {
        assert_eq!(rt; number_in(b"7", low, high), want, "at {low}");
    }
}

#[test]
fn the_words_of_a_line_are_read(rt: HostRuntime) {
    let mut words = Words::new(b" buy 100\t7 ");
    assert!(rt; !words.at_end());
    let side = words.wanted().map(|word| side_of(word) == Ok(Side::Buy));
    assert_eq!(rt; side, Ok(true));
    assert_eq!(rt; next_number(&mut words, 1, 100), Ok(100));
    assert_eq!(rt; next_number(&mut words, 8, 9), Err(LineFault::Number));
    assert!(rt; words.at_end());
    assert_eq!(rt; next_number(&mut words, 0, 9), Err(LineFault::Word));
    assert_eq!(rt; side_of(b"sell"), Ok(Side::Sell));
    for word in ["", "buys", "Buy", "sel"] {
        assert_eq!(rt;
            side_of(word.as_bytes()),
            Err(LineFault::Word),
            "at {word:?}"
        );
    }
}

#[test]
fn a_word_is_a_time(rt: HostRuntime) {
    printed_moments_read_back();
    for (word, want) in [
        ("00:00:00", Some(0)),
        ("00:00:00.001", Some(1)),
        ("09:05:30", Some(32_730_000)),
        ("12:34:56.007", Some(45_296_007)),
        ("23:59:59.999", Some(86_399_999)),
        ("24:00:00", None),
        ("12:60:00", None),
        ("12:00:60", None),
        ("12:00", None),
        ("9:00:00", None),
        ("12:00:00.", None),
        ("12:00:00.07", None),
        ("12:00:00.0070", None),
        ("12:00:00,007", None),
        ("12-00-00", None),
        ("1a:00:00", None),
        ("", None),
    ] {
        let at = time_word(word.as_bytes());
        assert_eq!(rt; at.map(|at| at.ms()), want, "at {word:?}");
    }
}

#[test]
fn a_fault_has_its_number(rt: HostRuntime) {
    for (fault, want) in [
        (LineFault::Word, 1),
        (LineFault::Number, 2),
        (LineFault::Issue, 3),
        (LineFault::Gateway, 4),
        (LineFault::Participant, 5),
        (LineFault::Own, 6),
        (too_long(500_000), 7),
        (too_long(500_001), 8),
        (LineFault::NotText, 9),
    ] {
        assert_eq!(rt; fault.number(), want);
    }
}

#[test]
fn a_line_is_tested_in_order(rt: HostRuntime) {
    let long = [1; 201];
    for (number, line, want) in [
        (500_001, long.as_slice(), Some(8)),
        (500_000, long.as_slice(), Some(7)),
        (1, &long[..200], Some(9)),
        (1, b"\x7f".as_slice(), Some(9)),
        (1, b"\x1f".as_slice(), Some(9)),
        (1, b"\xff".as_slice(), Some(9)),
        (1, b" \t~".as_slice(), None),
    ] {
        let fault = checked_words(number, line).err();
        assert_eq!(rt; fault.map(LineFault::number), want, "at {number}");
    }
}

// Lines of these lengths are tested in pieces, which overlap or not, or byte by byte.
#[test]
fn each_byte_of_a_line_is_tested(rt: HostRuntime) {
    for n in 1..=34 {
        for at in 0..n {
            let mut line = [b'a'; 34];
            line[at] = 31;
            let fault = checked_words(1, &line[..n]).err();
            assert_eq!(rt; fault, Some(LineFault::NotText), "at {at} of {n}");
            line[at] = b'\t';
            let Ok(mut words) = checked_words(1, &line[..n]) else {
                panic!(rt; "at {at} of {n}");
            };
            let first = if at == 0 { n - 1 } else { at };
            let word = words.next().map(|word| word.len());
            assert_eq!(rt; word, (first > 0).then_some(first), "at {at} of {n}");
            assert_eq!(rt; words.at_end(), at == 0 || at + 1 == n, "at {at} of {n}");
        }
    }
}

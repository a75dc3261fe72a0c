// Words, numbers and lines of short texts.
use crate::cursor::Cursor;
use crate::fault::Fault;
use crate::lines::{End, Line};
use crate::number::parse_number;
use crate::stop::Stop;
use crate::words::{is_same, split_word};
use crate::writing::{push_more_numbers, push_numbers};
use std::alloc::AllocError;
use std::test::Fail;

#[test]
fn reads_numbers(rt: HostRuntime) {
    assert_eq!(rt; parse_number(b"0042"), Some(42));
    assert_eq!(rt; parse_number(b"4294967295"), Some(4294967295));
    assert_eq!(rt; parse_number(b"4294967296"), None);
    assert_eq!(rt; parse_number(b"-1"), None);
    assert_eq!(rt; parse_number(b""), None);
}

#[test]
fn cuts_words(rt: HostRuntime) -> Result<(), Fail> {
    let Some((word, rest)) = split_word(b" \tone two\r") else {
        return Err(Fail::new("no word"));
    };
    assert!(rt; is_same(word, b"one"));
    assert_eq!(rt; rest, b" two\r".as_slice());
    Ok(())
}

#[test]
fn numbers_lines(rt: HostRuntime) -> Result<(), Fail> {
    let mut cursor = Cursor::start(b"# none\n\nlast");
    let Ok(Line { number, text }) = cursor.next_line() else {
        return Err(Fail::new("no line"));
    };
    assert_eq!(rt; number, 3);
    assert_eq!(rt; text, b"last".as_slice());
    assert!(rt; matches!(cursor.next_line(), Err(End { number: 4 })));
    Ok(())
}

#[test]
fn shows_faults(rt: HostRuntime) -> Result<(), Fail> {
    let fault = Fault {
        line: 3,
        expected: "a word",
    };
    assert_eq!(rt;
        fault.to_string(rt.alloc())?.as_str(),
        "line 3: expected a word"
    );
    Ok(())
}

#[test]
fn keeps_what_was_malformed(rt: HostRuntime) {
    let stop: Stop<u8> = Stop::Malformed(7);
    assert_eq!(rt; stop.into_malformed(), Ok(7));
    let stop: Stop<u8> = AllocError.into();
    assert_eq!(rt; stop.into_malformed(), Err(AllocError));
}

#[test]
fn writes_numbers(rt: HostRuntime) -> Result<(), Fail> {
    let mut text = String::from_str(rt.alloc(), "row ")?;
    push_numbers(&mut text, &[7, 0, 42])?;
    push_more_numbers(&mut text, &[4294967295])?;
    assert_eq!(rt; text.as_str(), "row 7 0 42 4294967295");
    Ok(())
}

// Texts with what is read from them.
use crate::command::{Command, FieldName};
use crate::keyword::Keyword;
use crate::reading::parse;
use std::alloc::Global;
use std::process::Abort;
use std::test::*;
use text::words::UnknownWord;

// How many commands are read, and the message of the fault after them, empty where there is none.
fn check_text(
    rt: &impl Abort,
    heap: Global,
    text: &[u8],
    commands: usize,
    message: &str,
) -> Result<(), Fail> {
    let parsed = parse(heap, text)?;
    assert_eq!(rt; parsed.commands.len(), commands);
    match parsed.fault {
        None => assert_eq!(rt; "", message),
        Some(fault) => assert_eq!(rt; fault.to_string(heap)?.as_str(), message),
    }
    Ok(())
}

#[test]
fn reads_an_offer(rt: HostRuntime) -> Result<(), Fail> {
    let parsed = parse(rt.alloc(), b"field octets\nunknowns 2\noffer 1 0255 | 7\n")?;
    assert!(rt; matches!(parsed.field, FieldName::Octets));
    let Some(
        Command::Offer {
            coefficients,
            value,
        },
    ) = parsed.commands.last()
    else {
        return Err(Fail::new("no offer"));
    };
    assert_eq!(rt; coefficients.as_slice(), [1, 255].as_slice());
    assert_eq!(rt; *value, 7);
    Ok(())
}

#[test]
fn reads_blocks(rt: HostRuntime) -> Result<(), Fail> {
    check_text(
        &rt,
        rt.alloc(),
        b"# two blocks\r\nunknowns 1\r\n\toffer | 0\r\nrank\r\n\r\nunknowns 2\npublish\nsolution\nkernel 0\nsymbol 1\nreport",
        9,
        "",
    )
}

#[test]
fn finds_faults_of_order(rt: HostRuntime) -> Result<(), Fail> {
    check_text(
        &rt,
        rt.alloc(),
        b"\nrank\n",
        0,
        "line 2: expected the command `field NAME` or `unknowns N`",
    )?;
    check_text(
        &rt,
        rt.alloc(),
        b"field octets\nfield octets\n",
        0,
        "line 2: expected the command `unknowns N`",
    )?;
    check_text(
        &rt,
        rt.alloc(),
        b"unknowns 1\nsolution\n",
        1,
        "line 2: expected `offer`, `rank`, `publish` or `unknowns`",
    )?;
    check_text(
        &rt,
        rt.alloc(),
        b"unknowns 1\npublish\nreport\noffer 1 | 1\n",
        3,
        "line 4: expected `solution`, `kernel K`, `symbol J`, `report` or `unknowns N`",
    )
}

#[test]
fn finds_faults_of_words(rt: HostRuntime) -> Result<(), Fail> {
    check_text(
        &rt,
        rt.alloc(),
        b"field reals\n",
        0,
        "line 1: expected one field after `field`: residues, octets or octets-by-shifts",
    )?;
    check_text(
        &rt,
        rt.alloc(),
        b"unknowns 4294967296\n",
        0,
        "line 1: expected one whole number below 2^32 after `unknowns`",
    )?;
    check_text(
        &rt,
        rt.alloc(),
        b"unknowns 2\noffer 1 2\n",
        1,
        "line 2: expected whole numbers below 2^32, `|` and one whole number after `offer`",
    )?;
    check_text(
        &rt,
        rt.alloc(),
        b"unknowns 2\nrank 2\n",
        1,
        "line 2: expected nothing after `rank`",
    )
}

#[test]
fn names_keywords_and_fields(rt: HostRuntime) {
    assert_eq!(rt;
        Keyword::try_from(b"report".as_slice()),
        Ok(Keyword::Report)
    );
    assert_eq!(rt; Keyword::try_from(b"reports".as_slice()), Err(UnknownWord));
    assert_eq!(rt;
        FieldName::try_from(b"octets".as_slice()),
        Ok(FieldName::Octets)
    );
    assert_eq!(rt; FieldName::try_from(b"".as_slice()), Err(UnknownWord));
}

use crate::{TEXT_LIMIT, TextError, push_dec, push_hex8, push_quoted, read_hex, read_quoted};
use std::test::Fail;

#[test]
fn printed_numbers_and_texts(rt: HostRuntime) -> Result<(), Fail> {
    let mut out = Vec::new(rt.alloc());
    push_hex8(&mut out, 0x80ff_01ac)?;
    push_dec(&mut out, 0)?;
    push_dec(&mut out, u64::MAX)?;
    push_quoted(&mut out, &[0x61, 0x22, 0x0a, 0x00])?;
    push_quoted(&mut out, &[0x5c, 0x09, 0x7e, 0x7f, 0xff])?;
    let want = b"80ff01ac018446744073709551615\"a\\\"\\n\\x00\"\"\\\\\\t~\\x7f\\xff\"";
    assert_eq!(rt; out.as_slice(), want.as_slice());
    Ok(())
}

#[test]
fn quoted_texts_are_read(rt: HostRuntime) -> Result<(), Fail> {
    for (name, word, want) in [
        (
            "the row of four bytes",
            "\"a\\\"\\n\\x00\"",
            [0x61u8, 0x22, 0x0a, 0x00].as_slice(),
        ),
        ("no byte", "\"\"", [].as_slice()),
        (
            "a spelling that isn't canonical",
            "\"\\x41\\x22\"",
            [0x41, 0x22].as_slice(),
        ),
        (
            "a backslash and a tab",
            "\"\\\\\\t\"",
            [0x5c, 0x09].as_slice(),
        ),
    ] {
        let text = read_quoted(rt.alloc(), word.as_bytes())?;
        assert_eq!(rt; text.as_slice(), want, "{name}");
    }
    Ok(())
}

#[test]
fn what_is_no_quoted_text_is_refused(rt: HostRuntime) -> Result<(), Fail> {
    for (name, word) in [
        ("an empty word", ""),
        ("a plain word", "a"),
        ("one quote", "\""),
        ("no closing quote", "\"a"),
        ("a byte behind the closing quote", "\"a\"b"),
        ("an escaped closing quote", "\"a\\\""),
        ("an upper-case digit", "\"\\x0A\""),
        ("one digit", "\"\\x0\""),
        ("an unknown escape", "\"\\q\""),
        ("a line feed", "\"\n\""),
        ("the byte 7f", "\"\u{7f}\""),
    ] {
        let refusal = read_quoted(rt.alloc(), word.as_bytes()).err();
        assert_eq!(rt; refusal, Some(TextError::BadQuote), "{name}");
    }
    Ok(())
}

#[test]
fn a_text_has_at_most_1000_bytes(rt: HostRuntime) -> Result<(), Fail> {
    let mut word = Vec::new(rt.alloc());
    push_quoted(&mut word, &[0; TEXT_LIMIT])?;
    assert_eq!(rt; read_quoted(rt.alloc(), &word)?.len(), 1_000);
    word.clear();
    push_quoted(&mut word, &[0; 1_001])?;
    assert_eq!(rt;
        read_quoted(rt.alloc(), &word).err(),
        Some(TextError::TooLong)
    );
    word.push(b'!')?;
    assert_eq!(rt;
        read_quoted(rt.alloc(), &word).err(),
        Some(TextError::BadQuote),
        "long, and no text"
    );
    Ok(())
}

#[test]
fn hexadecimal_numbers_are_read(rt: HostRuntime) -> Result<(), Fail> {
    for (word, want) in [
        ("0", Ok(0)),
        ("12", Ok(0x12)),
        ("0x12", Ok(0x12)),
        ("00010054", Ok(0x10054)),
        ("0xABCDEF01", Ok(0xabcd_ef01)),
        ("fFfFfFfF", Ok(u32::MAX)),
        ("", Err(TextError::BadHex)),
        ("0x", Err(TextError::BadHex)),
        ("0X12", Err(TextError::BadHex)),
        ("0x0x1", Err(TextError::BadHex)),
        ("000000012", Err(TextError::BadHex)),
        ("12g", Err(TextError::BadHex)),
        ("+1", Err(TextError::BadHex)),
    ] {
        assert_eq!(rt; read_hex(word.as_bytes()), want, "{word}");
    }
    Ok(())
}

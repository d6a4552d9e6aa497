use crate::{Ending, run_plain};
use rvd_fact::TextCause;
use rvd_io::{MemorySink, SteadyCabinet};
use std::alloc::{AllocError, Global};
use std::test::Fail;

// How `gen` of a word ends, and what the sink then holds. The cabinet has no files.
fn generate(alloc: Global, number: &str) -> Result<(Ending, MemorySink), AllocError> {
    let mut words = Vec::new(alloc);
    words.push(String::from_str(alloc, "gen")?)?;
    words.push(String::from_str(alloc, number)?)?;
    let mut files = SteadyCabinet::new(alloc, Vec::new(alloc));
    let mut out = MemorySink::new(alloc, 10_000, Vec::new(alloc))?;
    let ending = run_plain(alloc, &words, &mut files, &mut out);
    Ok((ending, out))
}

#[test]
fn sums_up_generated_images(rt: HostRuntime) -> Result<(), Fail> {
    let rows = [
        (
            "1",
            "functions 1\ninstructions 8\nstrings 1\nreferences 2\nbookmarks 0\nsettled\n",
        ),
        (
            "002",
            "functions 2\ninstructions 16\nstrings 2\nreferences 4\nbookmarks 0\nsettled\n",
        ),
        (
            "100",
            "functions 100\ninstructions 800\nstrings 100\nreferences 200\nbookmarks 0\nsettled\n",
        ),
    ];
    for (number, text) in rows {
        let (ending, out) = generate(rt.alloc(), number)?;
        assert_eq!(rt; ending, Ending::Done, "{number}");
        assert_eq!(rt; out.bytes(), text.as_bytes(), "{number}");
    }
    Ok(())
}

#[test]
fn refuses_other_numbers(rt: HostRuntime) -> Result<(), Fail> {
    let bad = Ending::BadText {
        word: 1,
        line: 1,
        cause: TextCause::BadNumber,
    };
    let rows = [
        ("0", bad),
        ("30001", bad),
        ("x", bad),
        ("", bad),
        ("1 ", bad),
        ("18446744073709551617", bad),
        ("-1", Ending::Usage),
    ];
    for (number, wanted) in rows {
        let (ending, out) = generate(rt.alloc(), number)?;
        assert_eq!(rt; ending, wanted, "{number}");
        assert!(rt; out.bytes().is_empty());
    }
    Ok(())
}

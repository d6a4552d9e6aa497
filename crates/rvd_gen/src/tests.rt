use crate::make;
use std::test::Fail;

// The bytes are those of the format's description, and the words of the code those that it lists.
#[test]
fn one_function_is_these_bytes(rt: HostRuntime) -> Result<(), Fail> {
    let image = make(rt.alloc(), 1)?;
    let headers: [u32; 29] = [
        // e_ident
        0x464c_457f,
        0x0001_0101,
        0,
        0,
        // e_type and e_machine, to e_shstrndx
        0x00f3_0002,
        1,
        0x0001_0000,
        52,
        0,
        0,
        0x0020_0034,
        0x0000_0002,
        0,
        // the program header of the code
        1,
        116,
        0x0001_0000,
        0x0001_0000,
        32,
        32,
        5,
        4,
        // the program header of the string
        1,
        148,
        0x0020_0000,
        0x0020_0000,
        16,
        16,
        4,
        4,
    ];
    let code: [u32; 8] = [
        0xff01_0113,
        0x0011_2623,
        0x0020_0537,
        0x0005_0513,
        0xff1f_f0ef,
        0x00c1_2083,
        0x0101_0113,
        0x0000_8067,
    ];
    let mut expected = Vec::new(rt.alloc());
    for word in headers {
        expected.extend_from_slice(&word.to_le_bytes())?;
    }
    for word in code {
        expected.extend_from_slice(&word.to_le_bytes())?;
    }
    expected.extend_from_slice(b"string 00000000\0")?;
    assert_eq!(rt; image.as_slice(), expected.as_slice());
    Ok(())
}

#[test]
fn an_image_has_48_bytes_for_each_function(rt: HostRuntime) -> Result<(), Fail> {
    for (n, size) in [(1, 164), (2, 212), (129, 6308), (30_000, 1_440_116)] {
        let image = make(rt.alloc(), n)?;
        assert_eq!(rt; image.len(), size, "{n}");
    }
    Ok(())
}

// From address 00200800 on the upper part is one more than the address has, and the lower part is negative.
#[test]
fn a_lower_part_may_be_negative(rt: HostRuntime) -> Result<(), Fail> {
    let image = make(rt.alloc(), 200)?;
    let function = 116 + 32 * 128;
    assert!(rt; image.len() > function + 16);
    assert_eq!(rt;
        &image[function + 8..function + 12],
        0x0020_1537u32.to_le_bytes().as_slice()
    );
    assert_eq!(rt;
        &image[function + 12..function + 16],
        0x8005_0513u32.to_le_bytes().as_slice()
    );
    Ok(())
}

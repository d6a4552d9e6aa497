use crate::{decode, encode, falls_through, is_call, is_jump, plain, text};
use std::test::Fail;

// The texts are those of llvm-objdump 14 with `-M no-aliases`, with each target as an address of
// eight digits and each upper immediate in five.
#[test]
fn words_print_as_their_instructions(rt: HostRuntime) -> Result<(), Fail> {
    let rows = [
        ("a negative immediate", 0xff01_0113, 0, "addi sp, sp, -16"),
        ("a store", 0x0011_2623, 0, "sw ra, 12(sp)"),
        ("an upper immediate", 0x0020_0537, 0, "lui a0, 0x00200"),
        (
            "a branch back",
            0xfe00_0ee3,
            0x10,
            "beq zero, zero, 0000000c",
        ),
        ("a branch on", 0x04b0_5863, 0, "bge zero, a1, 00000050"),
        ("a jump on", 0x01c0_006f, 0x14, "jal zero, 00000030"),
        (
            "a jump past the last address",
            0x01c0_006f,
            0xffff_fff0,
            "jal zero, 0000000c",
        ),
        (
            "a jump by a register",
            0x0000_8067,
            0x58,
            "jalr zero, 0(ra)",
        ),
        ("a load", 0x0081_2403, 0, "lw s0, 8(sp)"),
        ("a shift", 0x0025_9713, 0, "slli a4, a1, 2"),
        ("an arithmetic shift", 0x4010_5013, 0, "srai zero, zero, 1"),
        ("a subtraction", 0x40f6_0633, 0, "sub a2, a2, a5"),
        ("an environment call", 0x0000_0073, 0, "ecall"),
        ("a breakpoint", 0x0010_0073, 0, "ebreak"),
    ];
    for (name, word, at, expected) in rows {
        let insn = decode(word).ok_or(name)?;
        let mut out = Vec::new(rt.alloc());
        text(rt.alloc(), &insn, at, &mut out)?;
        assert_eq!(rt; out.as_slice(), expected.as_bytes(), "{name}");
        assert_eq!(rt; encode(&insn), word, "{name}");
    }
    Ok(())
}

#[test]
fn fence_ignores_its_other_fields(rt: HostRuntime) -> Result<(), Fail> {
    let insn = decode(0x0ff0_000f).ok_or("fence")?;
    let mut out = Vec::new(rt.alloc());
    text(rt.alloc(), &insn, 0, &mut out)?;
    assert_eq!(rt; out.as_slice(), b"fence".as_slice());
    assert_eq!(rt; encode(&insn), 0x0000_000f);
    Ok(())
}

#[test]
fn words_of_no_row_are_no_instructions(rt: HostRuntime) {
    let rows = [
        ("ecall with another immediate", 0x0020_0073),
        ("jalr with another funct3", 0x0000_1067),
        ("add with another funct7", 0x0200_0033),
        ("slli with the funct7 of srai", 0x4010_1013),
        ("zero", 0),
        ("ones", 0xffff_ffff),
    ];
    for (name, word) in rows {
        assert_eq!(rt; decode(word), None, "{name}");
        assert!(rt; falls_through(word), "{name}");
    }
}

#[test]
fn calls_and_jumps_are_told_by_the_destination(rt: HostRuntime) {
    let rows = [
        ("jal ra", 0x0000_00ef, true, false),
        ("jal zero", 0x0000_006f, false, true),
        ("jalr t0, 0(ra)", 0x0000_82e7, true, false),
        ("jalr zero, 0(ra)", 0x0000_8067, false, true),
        ("beq zero, zero", 0x0000_0063, false, false),
        (
            "no instruction with the opcode of jalr",
            0x0000_1067,
            false,
            false,
        ),
    ];
    for (name, word, call, jump) in rows {
        assert_eq!(rt; is_call(word), call, "{name}");
        assert_eq!(rt; is_jump(word), jump, "{name}");
        assert_eq!(rt; falls_through(word), !jump, "{name}");
    }
}

#[test]
fn decode_agrees_with_the_walk_over_the_rows(rt: HostRuntime) {
    for low in 0..0x8000u32 {
        for high in [0, 0x0100_0000, 0x4000_0000, 0x0010_0000, 0xa5a8_0000] {
            let word = low + high;
            assert_eq!(rt; decode(word), plain::decode(word), "{word:08x}");
        }
    }
}

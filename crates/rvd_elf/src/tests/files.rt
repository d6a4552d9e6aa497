//! The facts of an executable with sections and symbols.

pub const FACTS_OF_B: [&str; 10] = [
    "00010000 block 00000010 r-x init",
    "00010000 mark",
    "00010000 func",
    "00010000 symbol 0 _start",
    "0001000c func",
    "0001000c symbol 0 leaf",
    "00012000 block 00000004 rw- init",
    "00012004 block 00000004 rw- none",
    "00012004 symbol 0 counter",
    "00012800 symbol 0 __global_pointer$",
];

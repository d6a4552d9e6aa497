use rvd_fact::Addr;

/// Why a run ended.
#[derive(Clone, Copy, Debug, PartialEq, Eq)]
pub enum End {
    /// All steps are done.
    Budget,
    /// The program counter isn't a multiple of 4.
    MisalignedPc,
    /// The four bytes at the program counter aren't in one executable block.
    NoFetch,
    /// The word at the program counter is no instruction.
    Outside(u32),
    /// The instruction is ECALL.
    Ecall,
    /// The instruction is EBREAK.
    Ebreak,
    /// A load or a store at an address that isn't a multiple of its size.
    Misaligned(Addr),
    /// A load whose bytes aren't in one readable block.
    NoLoad(Addr),
    /// A store whose bytes aren't in one writable block.
    NoStore(Addr),
}

use rvd_fact::Addr;

/// A question about a program. Its answer is a text.
#[derive(Clone, Copy, Debug, PartialEq, Eq)]
pub enum Query {
    /// The listing line of the present unit on a byte.
    Unit(Addr),
    /// The name of an address.
    Name(Addr),
    /// The present references to an address.
    Xrefs(Addr),
    /// The functions whose present bodies have an address.
    Func(Addr),
    /// How many facts of each kind are present.
    Count,
}

/// How many actors there are. Actors are numbers: sessions come first, from 1 on, then workers.
#[derive(Clone, Copy, Debug, PartialEq, Eq)]
pub struct Names {
    /// The number of sessions.
    pub sessions: u32,
    /// The number of workers.
    pub workers: u32,
}

//! What a pass knows.
use std::collections::LinkedList;

/// What a pass knows of the turn. It exists in proofs alone: no value of it is made.
pub(crate) struct View<H, E> {
    /// Whether the pass still exists: it is false once the pass met another and was taken in.
    pub live: bool,
    /// The story's head. It is `None` only where the pass doesn't exist any more.
    pub head: Option<H>,
    /// The pass's own number, which is the owner of the entries that it adds.
    pub number: u64,
    /// The entries that it added, in order.
    pub own: LinkedList<E>,
    /// The numbers of the passes that met it, each with the entries of that pass.
    pub met: LinkedList<(u64, LinkedList<E>)>,
    /// The entries of the story that it has seen.
    pub seen: LinkedList<E>,
    /// What two passes had seen when they met, until the next look tells that both are prefixes.
    pub before: LinkedList<LinkedList<E>>,
    /// How many numbers passes have, at the pass that holds number 0. It is 0 at every other pass.
    pub made: u64,
    /// Whether it drew a number, which is `made`, and hasn't given it to a new pass yet.
    pub drawn: bool,
    /// The ticket that it drew and that isn't served to its end yet.
    pub ticket: Option<u64>,
    /// Whether it has the turn.
    pub turn: bool,
}

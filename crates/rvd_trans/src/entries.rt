ghost use Rattle.std.specs.Prelude.{◌≡◌, ◌<◌, ◌≤◌, length, remove, is_some, IfSome};
ghost use Rattle.rvd_trans.specs.Entries.{count_of, has_of, without_newest};

/// The most entries that may be live at once.
pub const MOST_LIVE: u32 = 64;

/// A live entry of a transaction: an actor began its part and hasn't ended it yet.
#[derive(Clone, Copy, Debug)]
pub struct Entry {
    /// The number of the entry.
    pub number: u64,
    /// The actor that began it.
    pub actor: u32,
}

/// How many entries are an actor's.
pub(crate) fn count_of(entries: &[Entry], actor: u32) -> u32
    requires { length entries.now ≤ MOST_LIVE }
    ensures { result ≡ count_of actor entries.now }
{
    entries.iter().filter(|entry| entry.actor == actor).count() as u32
}

/// The place of the newest of an actor's entries.
pub(crate) fn newest_of(entries: &[Entry], actor: u32) -> Option<usize>
    ensures found { is_some result ≡ has_of actor entries.now }
    ensures within { IfSome result (λ place. place < length entries.now) }
    ensures newest { IfSome result (λ place. remove entries.now place ≡ without_newest actor entries.now) }
{
    let mut place = entries.len();
    while place > 0 {
        place -= 1;
        if entries[place].actor == actor {
            return Some(place);
        }
    }
    None
}

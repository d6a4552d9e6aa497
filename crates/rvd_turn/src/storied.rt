//! Values that stand for a story.
ghost use Rattle.std.specs.Prelude.{◌≡◌, ℕ, List, length};

/// A value that stands for a story: a head, and a list of entries, each with an owner number.
pub trait Storied {
    /// What the story is about. It stays as it was when the turn was made.
    type Head;

    /// One entry of the story.
    type Entry;

    ghost head: { Self → Self.Head };

    ghost entries: { Self → List Self.Entry };

    ghost owner: { Self.Entry → ℕ };

    /// The number of entries.
    fn count(&self) -> u64
        ensures { result ≡ length (entries self.now) };
}

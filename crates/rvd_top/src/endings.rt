ghost use Rattle.std.specs.Prelude.{◌≡◌};
ghost use Rattle.rvd_top.specs.declared.endings.Ending.TheVariants.{Memory};

use rvd_desk::DeskError;
use rvd_elf::ElfError;
use rvd_fact::{TextCause, What};
use rvd_script::ScriptError;
use std::alloc::AllocError;

/// The most entries of a journal.
const MOST_ENTRIES: u64 = 1_000_000;

/// How a command ends.
#[derive(Clone, Copy, Debug, PartialEq, Eq)]
pub enum Ending {
    /// The sink has taken the whole text.
    Done,
    /// The words are no command.
    Usage,
    /// A fault of reading the file of this word, counted from 0.
    ReadFault {
        word: u32,
    },
    /// The file is no executable of the kind that is read here.
    NotThisKind(ElfError),
    /// The file is damaged.
    Damaged(ElfError),
    /// A line of a script or an event file is outside the grammar: the file's word, counted from 0,
    /// the line, counted from 1, and why.
    BadText {
        word: u32,
        line: u32,
        cause: TextCause,
    },
    /// A fault of writing. The sink has taken a front of the text.
    WriteFault,
    /// There was no memory.
    Memory,
    /// A count passes its limit: the number counted, and for the bytes of a file and the entries of a journal the
    /// limit itself.
    TooLarge {
        what: What,
        count: u64,
    },
    /// A line of a journal, counted from 1, is missing, outside the grammar or no step.
    Differs {
        line: u32,
    },
}

impl From<AllocError> for Ending {
    ghost from_gives = { λ _ ending. ending ≡ Memory };

    fn from(_: AllocError) -> Ending {
        Ending::Memory
    }
}

impl Ending {
    ghost use Rattle.rvd_top.specs.Endings.{IsAnswered, IsUnstopped, desk_ending, ending_of, script_ending, status_of};

    /// The exit status, 0 to 9 in the order of the variants.
    pub fn status(&self) -> u8
        ensures { result ≡ status_of self.now }
    {
        match self {
            Ending::Done => 0,
            Ending::Usage => 1,
            Ending::ReadFault { .. } => 2,
            Ending::NotThisKind(_) => 3,
            Ending::Damaged(_) => 4,
            Ending::BadText { .. } => 5,
            Ending::WriteFault => 6,
            Ending::Memory => 7,
            Ending::TooLarge { .. } => 8,
            Ending::Differs { .. } => 9,
        }
    }

    /// The ending for a refusal of the import.
    pub(crate) fn of_refusal(refusal: ElfError) -> Ending
        ensures ending { result ≡ ending_of refusal }
        ensures answered { IsAnswered result }
    {
        match refusal {
            ElfError::BadEntrySize(..)
            | ElfError::Truncated(..)
            | ElfError::BadRange(_)
            | ElfError::Overlap(..)
            | ElfError::BadLink(_)
            | ElfError::BadName(_) => Ending::Damaged(refusal),
            ElfError::TooMany(what, count) => Ending::TooLarge { what, count },
            ElfError::OutOfMemory => Ending::Memory,
            _ => Ending::NotThisKind(refusal),
        }
    }

    /// The ending for a refusal of the script or event file that a word names, by the word's place.
    pub(crate) fn of_script(word: u32, refusal: ScriptError) -> Ending
        ensures ending { result ≡ script_ending word refusal }
        ensures answered { IsAnswered result }
    {
        match refusal {
            ScriptError::TooManyLines(count) => Ending::TooLarge {
                what: What::Lines,
                count,
            },
            ScriptError::Bad { line, cause } => Ending::BadText { word, line, cause },
            ScriptError::OutOfMemory => Ending::Memory,
        }
    }

    /// The ending for an error of the desk, which is never a refusal, and is never stopped.
    pub(crate) fn of_desk(error: DeskError) -> Ending
        requires { IsUnstopped error }
        ensures ending { result ≡ desk_ending error }
        ensures answered { IsAnswered result }
    {
        match error {
            DeskError::JournalFull(_) => Ending::TooLarge {
                what: What::Entries,
                count: MOST_ENTRIES,
            },
            DeskError::OutOfMemory => Ending::Memory,
            DeskError::Refused(_) | DeskError::Stopped(_) => unreachable!(),
        }
    }
}

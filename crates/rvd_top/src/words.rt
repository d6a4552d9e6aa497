ghost use Rattle.std.specs.Prelude.{◌≡◌, map, string_bytes};
ghost use Rattle.rvd_top.specs.Words.{begins_with_dash, command_of, command_of_one, command_of_two, limit_at, names_in};

/// The most bytes of an ELF file, a script or an event file.
pub const MAX_FILE: u64 = 33_554_432;

/// The most bytes of a journal.
pub const MAX_JOURNAL: u64 = 1_073_741_824;

/// A command, by its first word.
#[derive(Clone, Copy, Debug, PartialEq, Eq)]
pub enum Command {
    /// The lines of a file's memory blocks.
    Show,
    /// The listing of a file after a whole analysis.
    List,
    /// What an event file leads to, over a file.
    Play,
    /// What a journal leads to, over a file.
    Replay,
    /// The summary of the generated image of a number of functions.
    Gen,
}

impl Command {
    /// The most bytes of the file that the word at a place names.
    pub(crate) fn limit_at(self, word: u32) -> u64
        ensures { result ≡ limit_at self word }
    {
        match self {
            Command::Replay if word == 2 => MAX_JOURNAL,
            _ => MAX_FILE,
        }
    }

    /// The words that name files.
    pub(crate) fn names_in(self, words: &[String]) -> &[String]
        ensures { map string_bytes result.now ≡ names_in self (map string_bytes words.now) }
    {
        match self {
            Command::Gen => &[],
            _ => words.get(1..).unwrap_or(&[]),
        }
    }
}

fn is_dashed(word: &str) -> bool
    ensures { result ≡ begins_with_dash word.now }
{
    let bytes = word.as_bytes();
    !bytes.is_empty() && bytes[0] == b'-'
}

fn command_of_one(word: &str) -> Option<Command>
    ensures { result ≡ command_of_one word.now }
{
    match word {
        "show" => Some(Command::Show),
        "list" => Some(Command::List),
        "gen" => Some(Command::Gen),
        _ => None,
    }
}

fn command_of_two(word: &str) -> Option<Command>
    ensures { result ≡ command_of_two word.now }
{
    match word {
        "play" => Some(Command::Play),
        "replay" => Some(Command::Replay),
        _ => None,
    }
}

/// The command of these words.
pub(crate) fn command_of(words: &[String]) -> Option<Command>
    ensures { result ≡ command_of (map string_bytes words.now) }
{
    match words {
        [word, first] if !is_dashed(first.as_str()) => command_of_one(word.as_str()),
        [word, first, second] if !is_dashed(first.as_str()) && !is_dashed(second.as_str()) => {
            command_of_two(word.as_str())
        }
        _ => None,
    }
}

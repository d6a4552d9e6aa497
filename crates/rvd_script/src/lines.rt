ghost use Rattle.std.specs.Prelude.{◌≡◌, ◌≤◌, length};
ghost use Rattle.rvd_script.specs.Lines.{IsLine, behind_end, line_len, lines_of};

use std::marker::Model;

/// How many bytes the first line has.
fn line_len(rest: &[u8]) -> usize
    ensures value { result ≡ line_len rest.now }
    ensures within { result ≤ length rest.now }
{
    for (i, byte) in rest.iter().enumerate() {
        if *byte == b'\n' || (*byte == b'\r' && rest[i + 1..].first() == Some(&b'\n')) {
            return i;
        }
    }
    rest.len()
}

/// What stands behind the end of a line.
fn behind_end(rest: &[u8]) -> &[u8]
    ensures { result.now ≡ behind_end rest.now }
{
    match rest {
        [] => rest,
        [b'\n', later @ ..] => later,
        [_, _, later @ ..] => later,
        [_] => &rest[1..],
    }
}

/// The lines of a file that are left, from the top down.
#[derive(Drop)]
pub struct Lines<'a> {
    rest: &'a [u8],
}

impl<'a> Model for Lines<'a> {
    ghost use Rattle.std.specs.Prelude.{List, ℕ};
    ghost use Rattle.rvd_script.specs.Lines.{lines_of};

    ghost Value = { List (List ℕ) };

    ghost view = { λ lines. lines_of lines.rest.now };
}

impl<'a> Lines<'a> {
    /// The lines of a file.
    pub fn of(bytes: &'a [u8]) -> Lines<'a>
        ensures { result ≡ lines_of bytes.now }
    {
        Lines { rest: bytes }
    }

    /// The next line, `None` where there are no more.
    pub fn next(&mut self) -> Option<&'a [u8]>
        ensures { IsLine self.old self.new result }
    {
        if self.rest.is_empty() {
            return None;
        }
        let len = line_len(self.rest);
        let line = &self.rest[..len];
        self.rest = behind_end(&self.rest[len..]);
        Some(line)
    }
}

/// How many lines a file has.
pub fn count_lines(bytes: &[u8]) -> u64
    ensures { result ≡ length (lines_of bytes.now) }
{
    let mut lines = Lines::of(bytes);
    let mut count = 0;
    while lines.next().is_some() {
        count += 1;
    }
    count
}

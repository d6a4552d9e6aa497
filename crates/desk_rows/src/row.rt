/// A played event file: the lines behind its head, then the lines of the journal behind its head and without their numbers,
/// those of the answers, those of the history without their numbers, and those of the listing. Where no lines are given, the text
/// isn't looked at.
#[derive(Clone, Copy)]
pub struct Row {
    pub name: &'static str,
    pub sessions: u64,
    pub workers: u64,
    pub events: &'static [&'static str],
    pub journal: &'static [&'static str],
    pub answers: &'static [&'static str],
    pub history: &'static [&'static str],
    pub listing: &'static [&'static str],
}

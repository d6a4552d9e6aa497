//! Worked rows of the desk, as tests: event files that are played on small programs, with the journal, the history and the
//! listing that they have to give.
#![tactic(auto)]

#[cfg(test)]
mod analyses;
#[cfg(test)]
mod more_rows;
#[cfg(test)]
mod playing;
#[cfg(test)]
mod row;
#[cfg(test)]
mod rows;
#[cfg(test)]
mod transactions;

//! Worked rows on small programs, as tests: which changes fit, what look-ups, asks and queries answer, and how addresses,
//! units and facts are named and written.
#![tactic(auto)]

#[cfg(test)]
mod query_rows;
#[cfg(test)]
mod tests;

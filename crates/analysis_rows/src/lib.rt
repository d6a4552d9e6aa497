//! Worked rows of the analysis on small programs, as tests: what each analyzer proposes, what is a candidate and what a
//! change wakes, and which facts stand when each analyzer has worked until nothing is left to change.
#![tactic(auto)]

#[cfg(test)]
mod flow;
#[cfg(test)]
mod functions;
#[cfg(test)]
mod judging;
#[cfg(test)]
mod listings;
#[cfg(test)]
mod references;
#[cfg(test)]
mod waking;

//! Boards whose publisher, workers and collector are threads, and the answers of a board.
//!
//! This crate is its tests: they call `job_board` and `stop_word` as a crate above them does. That they prove shows
//! that boards, passes and stop words may cross threads, whatever the types of the jobs and the results.
#![tactic(auto)]

#[cfg(test)]
mod answer_tests;
mod crew;
mod joining;
mod publishing;
#[cfg(test)]
mod round_tests;
mod starting;
mod working;

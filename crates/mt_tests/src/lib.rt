//! Tests that no case file of `mt_cases` can express: threads that meet, sources of their own, failed allocations, calls
//! that no program makes.
//!
//! `logs` has the logs and parts of the tests as bytes. A `Meeting` is a gate where a worker waits for others.
//!
//! Begin with `example.rt`, the example of docs/EMBEDDING.md.
#![tactic(auto)]

#[cfg(test)]
mod asserting;
#[cfg(test)]
mod claiming;
#[cfg(test)]
mod example;
#[cfg(test)]
mod feeding;
#[cfg(test)]
mod logs;
#[cfg(test)]
mod meeting;
#[cfg(test)]
mod refusals;
#[cfg(test)]
mod scanning;
#[cfg(test)]
mod sharing;
#[cfg(test)]
mod walking;
#[cfg(test)]
mod words;

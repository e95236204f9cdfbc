//! For callers that have updates in memory; no program of the repository takes this way.
pub mod bodies;
pub mod updates;

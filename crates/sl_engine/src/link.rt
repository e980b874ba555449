//! A link's values: its managed parameters, its streams with their faults, and what is counted.
pub mod managed;
pub mod totals;

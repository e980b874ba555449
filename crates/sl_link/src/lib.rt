//! The command line of the program `sllink`, and the laws of its listings and normal forms, over the
//! engines of `sl_engine`, whose calls are named here too.
//!
//! [`run`] reads a recording and writes what the command line asks for. [`link_options`] and
//! [`managed_of_options`] are its options of a recording, for programs of their own. The functions
//! of [`laws`] state what holds of the definitions that the contracts cite.
#![tactic(auto)]

pub mod laws;
mod program;

pub use program::command_line::{RefusedParameter, link_options, managed_of_options};
pub use program::run;
pub use sl_engine::{
    CheckWord, Compared, Counted, Engine, LinkFault, Managed, ManagedFault, RecordingKind, Signs,
    Summary, Totals, VerbName, WordCounts, check_tc, check_tm, compare_tc, compare_tm,
    normalise_tc, normalise_tm, packets_tc, packets_tm, run_engine, same_packets_in_memory_tc,
    same_packets_in_memory_tm, same_packets_tc, same_packets_tm, show_tc, show_tm,
    write_difference_tc, write_difference_tm,
};

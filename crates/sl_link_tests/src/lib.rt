//! Tests of the public calls of `sl_link`, a module for each topic, against answers known from
//! outside. They stand in a crate of their own, since a crate with tests is proved a second time
//! with them.
#![tactic(auto)]

#[cfg(test)]
mod channels;
#[cfg(test)]
mod command_line;
#[cfg(test)]
mod compare;
#[cfg(test)]
mod faults;
#[cfg(test)]
mod hostile;
#[cfg(test)]
mod listings_tc;
#[cfg(test)]
mod listings_tm;
#[cfg(test)]
mod live;
#[cfg(test)]
mod longest;
#[cfg(test)]
mod memory;
#[cfg(test)]
mod no_memory;
#[cfg(test)]
mod normalise;
#[cfg(test)]
mod normalise_tc;
#[cfg(test)]
mod parts;
#[cfg(test)]
mod program;
#[cfg(test)]
mod same;
#[cfg(test)]
mod show;
#[cfg(test)]
mod show_tc;
#[cfg(test)]
mod support;

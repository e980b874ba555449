//! Tests of the public calls of the libraries below `sl_link`, a module each, and of the callers in
//! `sl_callers`, against answers known from outside. They stand in a crate of their own, since a
//! crate with tests is proved a second time with them.
#![tactic(auto)]

#[cfg(test)]
mod callers;
#[cfg(test)]
mod cop;
#[cfg(test)]
mod fields;
#[cfg(test)]
mod packet;
#[cfg(test)]
mod pair;
#[cfg(test)]
mod support;
#[cfg(test)]
mod tcflow;
#[cfg(test)]
mod tcframe;
#[cfg(test)]
mod tmflow;
#[cfg(test)]
mod tmframe;

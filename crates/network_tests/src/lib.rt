//! Tests of the network crate: its limits, each of its refusals, sheets that go round, and damaged sheets.
//! Sheets are built and judged here by another method, over a list of single bits.
#![tactic(auto)]

mod bit_string;
mod fault;
mod judge;
#[cfg(test)]
mod lists;
#[cfg(test)]
mod sheets;
#[cfg(test)]
mod star;
#[cfg(test)]
mod writing;

//! Runs over sources and sinks that cut, fail or are full. Tests alone: what a line can say is a row of `conformance`, and what a call can
//! say a row of `calls`.
#![tactic(auto)]

#[cfg(test)]
mod commands;
#[cfg(test)]
mod ends;
#[cfg(test)]
mod pieces;

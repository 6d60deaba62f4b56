//! Tests of what no clause says and no run of a program shows: integers, values, lists and windows; the adapters over real files and
//! streams and over fakes that fail; runs of tokens, literals and regular expressions. They stand in a crate of their own, so that the
//! crates that they ask are proved once.
#![tactic(auto)]

#[cfg(test)]
mod adapters;
#[cfg(test)]
mod integers;
#[cfg(test)]
mod lists;
#[cfg(test)]
mod literals;
#[cfg(test)]
mod regexes;
#[cfg(test)]
mod runs;
#[cfg(test)]
mod values;
#[cfg(test)]
mod windows;

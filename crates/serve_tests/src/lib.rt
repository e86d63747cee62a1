//! Tests of `served_bytes`, `line_keys`, `ansi_line` and `one_call`.
#![tactic(auto)]

#[cfg(test)]
mod ansi;
#[cfg(test)]
mod bytes;
#[cfg(test)]
mod calls;
#[cfg(test)]
mod exchanges;
#[cfg(test)]
mod keys;
#[cfg(test)]
mod line;

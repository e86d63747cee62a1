//! Tests of `base_text`, `cert_table`, `cert_text` and `text_edits`.
#![tactic(auto)]

#[cfg(test)]
mod base;
#[cfg(test)]
mod certificates;
#[cfg(test)]
mod edits;
#[cfg(test)]
mod rows;
#[cfg(test)]
mod steps;
#[cfg(test)]
mod tables;

//! Tests of `slip_fixes` and `frame_edits`.
#![tactic(auto)]

#[cfg(test)]
mod fixes;
#[cfg(test)]
mod merges;
#[cfg(test)]
mod rounds;

//! Tests of `page_ids`, `frame_records`, `terminal_codes`, `abstract_paint` and `session_machine`.
#![tactic(auto)]

#[cfg(test)]
mod codes;
#[cfg(test)]
mod frames;
#[cfg(test)]
mod ids;
#[cfg(test)]
mod paint;
#[cfg(test)]
mod plain_program;
#[cfg(test)]
mod probes;
#[cfg(test)]
mod sessions;

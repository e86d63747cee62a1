//! Tests of `policy_text`, `editions`, `edition_checks`, `base_differences`, `publishing` and `edition_lists`.
#![tactic(auto)]

#[cfg(test)]
mod fake_folder;
#[cfg(test)]
mod lists;
#[cfg(test)]
mod memory_store;
#[cfg(test)]
mod moments;
#[cfg(test)]
mod policies;
#[cfg(test)]
mod runs;
#[cfg(test)]
mod texts;

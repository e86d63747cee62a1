//! Tests of `devices`, by the devices of `test_support`, of `explain`, `audit_report` and `base_map`, and of the runs of
//! `pageaudit`. `tests/failing-devices` tries the same runs with devices that fail at each byte.
#![tactic(auto)]

#[cfg(test)]
mod audit_runs;
#[cfg(test)]
mod change_runs;
#[cfg(test)]
mod check_runs;
#[cfg(test)]
mod expected;
#[cfg(test)]
mod explained_words;
#[cfg(test)]
mod export_runs;
#[cfg(test)]
mod from_read;
#[cfg(test)]
mod import_runs;
#[cfg(test)]
mod into_write;
#[cfg(test)]
mod lint_runs;
#[cfg(test)]
mod list_runs;
#[cfg(test)]
mod list_texts;
#[cfg(test)]
mod map_runs;
#[cfg(test)]
mod map_texts;
#[cfg(test)]
mod map_titles;
#[cfg(test)]
mod map_windows;
#[cfg(test)]
mod show_runs;
#[cfg(test)]
mod statuses;
#[cfg(test)]
mod walk_runs;
#[cfg(test)]
mod whole_reads;
#[cfg(test)]
mod whole_writes;

//! Tests of `finder`, `checker`, `base_faults`, `fault_scripts` and `audit_report`.
#![tactic(auto)]

#[cfg(test)]
mod bases;
#[cfg(test)]
mod checks;
#[cfg(test)]
mod covers;
#[cfg(test)]
mod finds;
#[cfg(test)]
mod inputs;
#[cfg(test)]
mod lists;
#[cfg(test)]
mod policies;
#[cfg(test)]
mod reports;
#[cfg(test)]
mod scripts;

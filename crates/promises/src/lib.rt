//! Each promise of docs/PROMISES.md once more, as the contract of a caller.
//!
//! A function here calls the one that keeps the promise, and has the promise as its own clause: the headline and the promise of a
//! change in full, of keys, replies and terminals. So a clause that is emptied or weakened below leaves a function here unproved.
//! Nothing is exported. The promises of the calls for C are in the file `calls`, which `tests/contracts` compares with their clauses.
#![tactic(auto)]

mod audits;
mod calls_served;
mod changes;
mod checks;
mod findings;
mod folders;
mod imported;
mod lists;
mod looks;
mod published;
mod runs;
mod shown;
mod texts;

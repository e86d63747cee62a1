//! The words of the command line, read by clap to a request.
//!
//! The options, their ranges and the help texts are here. Nothing is opened and nothing is printed: what clap has to say comes
//! back as its error, and the program prints it.
//!
//! - [`words`], [`WordsFault`]: the program's words, or why there are none.
//! - [`matches`]: what clap makes of them, or its error: a usage text, or help.
//! - [`groups_of`], [`asked_for`], [`Request`], [`Lint`], [`Colouring`], [`Fixing`], [`Show`], [`Pages`], [`Import`], [`Export`],
//!   [`Publish`], [`Serve`], [`CallForm`]: the caller's groups, and what is asked for.
#![tactic(auto)]

mod asked;
mod command;
mod help;
mod request;

pub use asked::{asked_for, groups_of};
pub use command::{WordsFault, matches, words};
pub use request::{
    CallForm, Colouring, Export, Fixing, Import, Lint, Pages, Publish, Request, Serve, Show,
};

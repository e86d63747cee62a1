//! Tests of `base_text`, `toml_places`, `lint_words`, `lint` and `finding_forms`. The wanted words are those of
//! tests/cases/lint.md, or follow the front pages of these crates.
#![tactic(auto)]

#[cfg(test)]
mod draft_wholes;
#[cfg(test)]
mod drafts;
#[cfg(test)]
mod fault_words;
#[cfg(test)]
mod finding_spans;
#[cfg(test)]
mod findings;
#[cfg(test)]
mod forms;
#[cfg(test)]
mod hint_places;
#[cfg(test)]
mod hints;
#[cfg(test)]
mod places;
#[cfg(test)]
mod printed;
#[cfg(test)]
mod spans;
#[cfg(test)]
mod text_lines;
#[cfg(test)]
mod text_words;
#[cfg(test)]
mod value_hints;
#[cfg(test)]
mod warnings;
#[cfg(test)]
mod whole_words;
#[cfg(test)]
mod written;

//! Tests of `near_words`, `screens`, `screen_forms`, `screen_files`, `frame_screens`, `import_laws` and `base_pages`.
#![tactic(auto)]

#[cfg(test)]
mod albums;
#[cfg(test)]
mod files;
#[cfg(test)]
mod forms;
#[cfg(test)]
mod frames;
#[cfg(test)]
mod looks;
#[cfg(test)]
mod names;
#[cfg(test)]
mod notation;
#[cfg(test)]
mod pages;
#[cfg(test)]
mod parts;
#[cfg(test)]
mod sheets;
#[cfg(test)]
mod texts;

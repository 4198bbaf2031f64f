//! The real folder, streams, programs and links.
#![tactic(auto)]

#[cfg(test)]
mod files_and_streams;
#[cfg(test)]
mod links;

//! Coverage files and the rules that make them, on worked examples and tables of edge cases.
#![tactic(auto)]

#[cfg(test)]
mod coverage_files;
#[cfg(test)]
mod rules;

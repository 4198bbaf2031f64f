//! Lines, mappings, source maps and what they lead back to, on worked examples and tables of edge cases.
#![tactic(auto)]

#[cfg(test)]
mod lines;
#[cfg(test)]
mod mappings;
#[cfg(test)]
mod maps;
#[cfg(test)]
mod remap;

//! Texts that are read and written, on worked examples and tables of edge cases.
#![tactic(auto)]

#[cfg(test)]
mod cleaning;
#[cfg(test)]
mod coverage;
#[cfg(test)]
mod pieces;
#[cfg(test)]
mod scripts;
#[cfg(test)]
mod table;
#[cfg(test)]
mod trace;
#[cfg(test)]
mod walking;

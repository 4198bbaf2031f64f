//! Ranges, runs, books and merged files, on worked examples and tables of edge cases.
#![tactic(auto)]

#[cfg(test)]
mod books;
#[cfg(test)]
mod making;
#[cfg(test)]
mod merged_files;
#[cfg(test)]
mod normal_lists;
#[cfg(test)]
mod ranges;
#[cfg(test)]
mod readings;
#[cfg(test)]
mod runs;

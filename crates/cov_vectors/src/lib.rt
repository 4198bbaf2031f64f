//! Tests that no case file can be: where memory is wanted, workers and sessions that run at once, the real folder and stream, and
//! sockets.
#![tactic(auto)]

#[cfg(test)]
mod calls;
#[cfg(test)]
mod meeting;
#[cfg(test)]
mod memory;
#[cfg(test)]
mod nested;
#[cfg(test)]
mod outside;
#[cfg(test)]
mod replaying;
#[cfg(test)]
mod requests;
#[cfg(test)]
mod sessions;
#[cfg(test)]
mod socket;
#[cfg(test)]
mod watched;
#[cfg(test)]
mod workers;

//! Messages, targets, servers, clients and workers, over links and texts in memory.
#![tactic(auto)]

#[cfg(test)]
mod attaching;
#[cfg(test)]
mod collecting;
#[cfg(test)]
mod messages;
#[cfg(test)]
mod serving;
#[cfg(test)]
mod target;

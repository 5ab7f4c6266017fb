//! Tests of the public calls that cross crates below the desk, and of what no contract says.
#![tactic(auto)]

#[cfg(test)]
mod asked;
#[cfg(test)]
mod copies;
#[cfg(test)]
mod created;
#[cfg(test)]
mod files;
#[cfg(test)]
mod fourteen;
#[cfg(test)]
mod full;
#[cfg(test)]
mod heads;
#[cfg(test)]
mod picks;
#[cfg(test)]
mod puts;
#[cfg(test)]
mod queues;
#[cfg(test)]
mod readers;
#[cfg(test)]
mod rebuilt;
#[cfg(test)]
mod requests;
#[cfg(test)]
mod rows;
#[cfg(test)]
mod search;
#[cfg(test)]
mod tables;
#[cfg(test)]
mod written;

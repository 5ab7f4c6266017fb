//! Tests of the desk that no transcript can say: conversations over readers and writers that fail,
//! clients over sockets and in memory, and what faults display; and that premises of laws are met.
#![tactic(auto)]

#[cfg(test)]
mod answered;
#[cfg(test)]
mod clients;
#[cfg(test)]
mod displayed;
#[cfg(test)]
mod premises;
#[cfg(test)]
mod served;

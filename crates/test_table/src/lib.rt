//! Tests of tables: each scene is played on a table of one thread, and on one that several workers append to and readers read.
#![tactic(auto)]

#[cfg(test)]
mod admitting;
#[cfg(test)]
mod alone;
#[cfg(test)]
mod answering;
#[cfg(test)]
mod appending;
#[cfg(test)]
mod batches;
#[cfg(test)]
mod dictionaries;
#[cfg(test)]
mod facts;
#[cfg(test)]
mod joining;
#[cfg(test)]
mod limits;
#[cfg(test)]
mod opening;
#[cfg(test)]
mod played;
#[cfg(test)]
mod printing;
#[cfg(test)]
mod reading;
#[cfg(test)]
mod scenes;
#[cfg(test)]
mod widening;

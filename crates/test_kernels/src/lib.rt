//! Tests of what computes on arrays: kernels, selections, pools of texts and statistics. And of how faults are printed.
#![tactic(auto)]

#[cfg(test)]
mod choosing;
#[cfg(test)]
mod computing;
#[cfg(test)]
mod faults;
#[cfg(test)]
mod joining;
#[cfg(test)]
mod large;
#[cfg(test)]
mod pieces;
#[cfg(test)]
mod pooling;
#[cfg(test)]
mod statistics;

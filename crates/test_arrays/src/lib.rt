//! Tests of arrays, from bits and buffers up to record batches.
#![tactic(auto)]

#[cfg(test)]
mod bits;
#[cfg(test)]
mod builders;
#[cfg(test)]
mod layouts;
#[cfg(test)]
mod makers;
#[cfg(test)]
mod nulls;
#[cfg(test)]
mod schemas;
#[cfg(test)]
mod testing;
#[cfg(test)]
mod views;

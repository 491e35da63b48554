//! Tests of queries: how they are read, how names are resolved, what fits a schema, which faults are reported, what filters are at the rows
//! of a batch, and what is answered, in any number of pieces.
#![tactic(auto)]

#[cfg(test)]
mod answering;
#[cfg(test)]
mod building;
#[cfg(test)]
mod depths;
#[cfg(test)]
mod faults;
#[cfg(test)]
mod filters;
#[cfg(test)]
mod gates;
#[cfg(test)]
mod many;
#[cfg(test)]
mod numbered;
#[cfg(test)]
mod pieces;
#[cfg(test)]
mod reading;
#[cfg(test)]
mod resolving;
#[cfg(test)]
mod together;

//! Tests of workers on threads: of files that several load, and of a table that some append to while others read it.
#![tactic(auto)]

#[cfg(test)]
mod ends;
#[cfg(test)]
mod gates;
#[cfg(test)]
mod hands;
#[cfg(test)]
mod loading;
#[cfg(test)]
mod played;
#[cfg(test)]
mod scenes;
#[cfg(test)]
mod soaking;

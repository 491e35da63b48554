//! Tests of files of JSON: what is read of them and what is reported, what is printed, and that it reads back as it was; and JSON and
//! columns at places of a text.
#![tactic(auto)]

#[cfg(test)]
mod dictionaries;
#[cfg(test)]
mod lawful;
#[cfg(test)]
mod printing;
#[cfg(test)]
mod reading;
#[cfg(test)]
mod scanning;
#[cfg(test)]
mod shipped;
#[cfg(test)]
mod streaming;

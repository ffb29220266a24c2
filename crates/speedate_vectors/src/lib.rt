//! Tests of the library through its public paths: worked examples, and the cases that the Rust
//! crate's own tests hold. Laws of what the library derives.
#![tactic(auto)]

#[cfg(test)]
mod calendar;
#[cfg(test)]
mod choices;
#[cfg(test)]
mod column_clocks;
#[cfg(test)]
mod column_parts;
#[cfg(test)]
mod column_print;
#[cfg(test)]
mod column_texts;
#[cfg(test)]
mod columns;
#[cfg(test)]
mod date_times;
#[cfg(test)]
mod dates;
#[cfg(test)]
mod durations;
#[cfg(test)]
mod faults;
#[cfg(test)]
mod first_calls;
#[cfg(test)]
mod fractions;
#[cfg(test)]
mod laws;
#[cfg(test)]
mod loose;
#[cfg(test)]
mod numbers;
#[cfg(test)]
mod orders;
#[cfg(test)]
mod places;
#[cfg(test)]
mod rows;
#[cfg(test)]
mod shown;
#[cfg(test)]
mod surface;
#[cfg(test)]
mod times;

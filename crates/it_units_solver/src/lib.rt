//! Tests of the solver's libraries, from fractions to elimination.
#![tactic(auto)]

#[cfg(test)]
mod closures;
#[cfg(test)]
mod codes;
#[cfg(test)]
mod divisors;
#[cfg(test)]
mod elementals;
#[cfg(test)]
mod eliminations;
#[cfg(test)]
mod settling;
#[cfg(test)]
mod spaces;
#[cfg(test)]
mod spans;
#[cfg(test)]
mod symmetries;
#[cfg(test)]
mod systems;
#[cfg(test)]
mod tableaus;

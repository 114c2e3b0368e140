//! Tests of the libraries of bytes, of the language with heads of files, and of containment, printing and drawn questions.
#![tactic(auto)]

#[cfg(test)]
mod draws;
#[cfg(test)]
mod fixtures;
#[cfg(test)]
mod heads;
#[cfg(test)]
mod limits;
#[cfg(test)]
mod lines;
#[cfg(test)]
mod outside;
#[cfg(test)]
mod searches;
#[cfg(test)]
mod texts;

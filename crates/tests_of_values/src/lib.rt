//! Tests of the crates of values and sheets through their public calls: of what `value_rows` has no words for, of faults in
//! the middle of a stream, of the system's files, and of great sizes.
#![tactic(auto)]

#[cfg(test)]
mod arrays;
#[cfg(test)]
mod files;
#[cfg(test)]
mod frames;
#[cfg(test)]
mod links;
#[cfg(test)]
mod sheets;
#[cfg(test)]
mod sizes;

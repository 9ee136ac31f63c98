//! Tests of what no case of rows can say: reads and writes that fail in mid-stream, a file above the limit, and public
//! calls that may lack memory and that no program reaches yet. What a source and its answer can say is a case of rows.
//!
//! A program that does nothing, and no library, since the kit reads all files below a library once for each path.
#![tactic(auto)]

#[cfg(test)]
mod codes;
#[cfg(test)]
mod commands;
#[cfg(test)]
mod trees;

fn main(_rt: HostRuntime) {}

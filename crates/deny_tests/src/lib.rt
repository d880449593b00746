//! The callers that the leaf crates show, and tests over public calls alone, of what no clause says and no
//! table of cases can say: that a call succeeds where memory is there, what it shows, and how copies compare.
//! Library crates have no tests, since a crate with one is proved whole a second time.
#![tactic(auto)]

#[cfg(test)]
mod base;
#[cfg(test)]
mod builds;
#[cfg(test)]
mod distances;
#[cfg(test)]
mod dup_edges;
#[cfg(test)]
mod examples;
#[cfg(test)]
mod files;
#[cfg(test)]
mod globs;
#[cfg(test)]
mod graphs;
#[cfg(test)]
mod json;
#[cfg(test)]
mod krates;
#[cfg(test)]
mod listing;
#[cfg(test)]
mod lists;
#[cfg(test)]
mod outside;
#[cfg(test)]
mod policy;
#[cfg(test)]
mod replaced;
#[cfg(test)]
mod spans;
#[cfg(test)]
mod toml;
#[cfg(test)]
mod trees;
#[cfg(test)]
mod walking;

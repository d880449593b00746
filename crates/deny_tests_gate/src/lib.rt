//! Tests of the gate and of the program as calls: what a report has beside the lines, the code that a program
//! exits with, and a run on files of the system.
#![tactic(auto)]

#[cfg(test)]
mod exit;
#[cfg(test)]
mod gate;
#[cfg(test)]
mod graphs;
#[cfg(test)]
mod run;
#[cfg(test)]
mod trees;

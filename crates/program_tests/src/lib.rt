//! Tests of the program's run, of the sessions of its clients and of its edge, through their public calls: a crate with tests of
//! its own is proved twice. What is a script and its output is no test here, but a line of the program's own run or a folder of runs/.
#![tactic(auto)]

#[cfg(test)]
mod edges;
#[cfg(test)]
mod runs;
#[cfg(test)]
mod sessions;

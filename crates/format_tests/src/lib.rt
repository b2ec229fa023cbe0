//! Tests of lists and fields of bytes, of frames, of what is stored of them, and of scripts, through their public calls: a crate with
//! tests of its own is proved twice, and most of those below are large.
#![tactic(auto)]

#[cfg(test)]
mod columns;
#[cfg(test)]
mod cuts;
#[cfg(test)]
mod fields;
#[cfg(test)]
mod frames;
#[cfg(test)]
mod indexes;
#[cfg(test)]
mod items;
#[cfg(test)]
mod keys;
#[cfg(test)]
mod scripts;
#[cfg(test)]
mod segments;

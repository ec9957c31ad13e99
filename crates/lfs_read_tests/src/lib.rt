//! Tests of what is read of images and written into them: vectors from outside, and each public call once. Which images mount, and
//! what is made of odd ones, is tested by `tests/images.py`, over the program.
#![tactic(auto)]

#[cfg(test)]
mod adopted;
#[cfg(test)]
mod appending;
#[cfg(test)]
mod blocks;
#[cfg(test)]
mod commits;
#[cfg(test)]
mod cutting;
#[cfg(test)]
mod deltas;
#[cfg(test)]
mod devices;
#[cfg(test)]
mod entries;
#[cfg(test)]
mod files;
#[cfg(test)]
mod images;
#[cfg(test)]
mod joints;
#[cfg(test)]
mod journals;
#[cfg(test)]
mod logs;
#[cfg(test)]
mod patches;
mod samples;
#[cfg(test)]
mod surveys;
#[cfg(test)]
mod trees;
#[cfg(test)]
mod unfinished;
#[cfg(test)]
mod writing;

pub use samples::block_of;

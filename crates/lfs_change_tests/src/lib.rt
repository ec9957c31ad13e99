//! Tests of commands and their layers, which call them as the crates above do: refusals, outlines, what is written, runs of steps, writers.
//! What a command makes of an image is tested by `tests/trees.py` and `tests/rows.py`, new images by `tests/limits.py`, and histories that
//! are saved and opened by `tests/journals.py`, all over the program.
#![tactic(auto)]

#[cfg(test)]
mod carrying;
#[cfg(test)]
mod contents;
#[cfg(test)]
mod cutting;
#[cfg(test)]
mod histories;
#[cfg(test)]
mod images;
#[cfg(test)]
mod judging;
mod new_images;
#[cfg(test)]
mod packing;
#[cfg(test)]
mod reaching;
#[cfg(test)]
mod repacking;
#[cfg(test)]
mod syncing;
#[cfg(test)]
mod weighing;
#[cfg(test)]
mod writers;

pub use new_images::new_image_of;

//! Attributes of entries, and their names.

use crate::images::file;
use lfs_meta::{Entry, copied_attributes, is_name};
use std::alloc::Global;

/// Whether an entry gets an attribute.
fn is_set(alloc: Global, entry: &mut Entry) -> bool {
    entry.set_attribute(alloc, 0x74, b"late").is_ok() && entry.has_attribute(0x74)
}

/// Whether an entry has one attribute, which is copied.
fn is_copied(alloc: Global, entry: &Entry) -> bool {
    match copied_attributes(alloc, &entry.attributes) {
        Ok(copies) => copies.len() == 1,
        Err(_) => false,
    }
}

/// Whether an entry loses that attribute.
fn is_removed(entry: &mut Entry) -> bool {
    entry.remove_attribute(0x74);
    !entry.has_attribute(0x74)
}

/// Whether a file gets an attribute, which is copied, and loses it.
fn attribute_comes_and_goes(alloc: Global) -> bool {
    match file(alloc) {
        Ok(mut entry) => {
            is_set(alloc, &mut entry) && is_copied(alloc, &entry) && is_removed(&mut entry)
        }
        Err(_) => false,
    }
}

#[test]
fn attributes_are_set_copied_and_removed(rt: HostRuntime) {
    assert!(rt; attribute_comes_and_goes(rt.alloc()));
}

#[test]
fn which_names_are_taken(rt: HostRuntime) {
    assert!(rt; is_name(b"..a"));
    assert!(rt; !is_name(b"a/"));
}

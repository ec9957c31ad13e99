//! The superblock's limits.

/// The most bytes of a file in an image.
///
/// Source: SPEC.md, "0x0ff superblock".
pub const MOST_FILE: u32 = 2_147_483_647;
/// The most bytes that one tag holds: of a name, of an attribute, or of a file that stands in its entry.
///
/// Source: SPEC.md, "Metadata tags".
pub const MOST_HELD: u32 = 1_022;
/// The limits of a new image.
pub const NEW_LIMITS: Limits = Limits {
    name: 255,
    file: MOST_FILE,
    attribute: MOST_HELD,
};

/// The greatest length of a name, a file and an attribute, in bytes.
///
/// Source: SPEC.md, "0x0ff superblock".
#[derive(Clone, Copy, PartialEq, Eq)]
pub struct Limits {
    /// Of a name.
    pub name: u32,
    /// Of a file.
    pub file: u32,
    /// Of an attribute.
    pub attribute: u32,
}

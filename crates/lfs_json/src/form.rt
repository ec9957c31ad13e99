//! The form of what is printed.

/// The form of what is printed.
#[derive(Clone, Copy)]
pub enum Form {
    /// Text for people.
    Text,
    /// An object of JSON a line.
    Json,
}

//! The last name of a path's text.

/// What stands behind the last slash of a text, which is all of it where there is none.
pub(crate) fn last_name(path: &[u8]) -> &[u8] {
    path.rsplit(|&byte| byte == b'/').next().unwrap_or(path)
}

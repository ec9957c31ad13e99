//! Why a text is no path.

ghost use Rattle.std.specs.Prelude.{◌≡◌};

use crate::line::{Piece, report_pieces};
use lfs_host::Host;

/// Tells why a text is no path, and which one may be meant.
pub(crate) fn report_no_path<H: Host>(host: &mut H, image: &str, text: &[u8])
    ensures kept { H.known host.new ≡ H.known host.old }
{
    if !text.starts_with(b"/") {
        report_relative(host, image, text);
    } else if text.ends_with(b"/") {
        report_closing(host, image, text);
    } else {
        report_pieces(
            host,
            image,
            &[Piece::Bytes(text), Piece::Text(flaw_of(text))],
        );
    }
}

/// Tells that a text doesn't begin as a path does.
fn report_relative<'a, H: Host>(host: &mut H, image: &str, text: &'a [u8])
    ensures kept { H.known host.new ≡ H.known host.old }
{
    report_pieces(
        host,
        image,
        &[
            Piece::Bytes(text),
            Piece::Text(": a path begins with /: try /"),
            Piece::Bytes(text),
        ],
    );
}

/// Tells that a slash stands behind the last name of a path.
fn report_closing<'a, H: Host>(host: &mut H, image: &str, text: &'a [u8])
    ensures kept { H.known host.new ≡ H.known host.old }
{
    let without = text.strip_suffix(b"/").unwrap_or(text);
    report_pieces(
        host,
        image,
        &[
            Piece::Bytes(text),
            Piece::Text(": a path has no slash at its end: try "),
            Piece::Bytes(without),
        ],
    );
}

/// What is wrong in a text that begins as a path does, and doesn't end with a slash.
fn flaw_of(text: &[u8]) -> &'static str {
    if has_name(text, b"") {
        ": two slashes stand together"
    } else if has_name(text, b".") || has_name(text, b"..") {
        ": no name of a path is . or .."
    } else {
        ": is no path"
    }
}

/// Whether this stands between two slashes of a text, or behind its last one.
fn has_name(text: &[u8], name: &[u8]) -> bool {
    text.split(|&byte| byte == b'/')
        .skip(1)
        .any(|piece| piece == name)
}

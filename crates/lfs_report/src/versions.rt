//! What an image states of itself, as it is told, and what helps with an image that a device wrote.

ghost use Rattle.std.specs.Prelude.{◌≡◌};

use crate::hint::hint_at;
use crate::line::{Piece, report_pieces, report_with_blocks, report_with_version};
use crate::stated::StatedPlace;
use lfs_host::Host;
use lfs_lower::{StatedVersion, Superblock};

/// What is told in front of the disk version that the first block states.
const FIRST_BLOCK: &str = "its first block states disk version ";

/// What is told in front of the disk version of a later commit, for which an image is refused.
const CHANGED: &str = "a device has changed it with disk version ";

/// Tells what is stated somewhere in an image.
pub(crate) fn report_stated<H: Host>(
    host: &mut H,
    image: &str,
    hint: Option<&'static str>,
    place: StatedPlace,
    stated: Superblock,
)
    ensures kept { H.known host.new ≡ H.known host.old }
{
    let blocks = (stated.count as usize, stated.size);
    let version = stated.version;
    match place {
        StatedPlace::Superblock => report_with_blocks(
            host,
            image,
            "its superblock states ",
            blocks,
            " bytes",
        ),
        StatedPlace::SuperblockVersion => report_stated_version(
            host,
            image,
            hint,
            "its superblock states disk version ",
            version,
        ),
        StatedPlace::FirstBlock => report_with_blocks(
            host,
            image,
            "its first block states ",
            blocks,
            " bytes",
        ),
        StatedPlace::Version => report_stated_version(host, image, hint, FIRST_BLOCK, version),
    }
}

/// Tells the disk version that a block states of which version 2.0 reads no commit.
pub(crate) fn report_unread<H: Host>(
    host: &mut H,
    image: &str,
    hint: Option<&'static str>,
    stated: StatedVersion,
)
    ensures kept { H.known host.new ≡ H.known host.old }
{
    let front = if stated.block == 0 {
        FIRST_BLOCK
    } else {
        "its second block states disk version "
    };
    report_stated_version(host, image, hint, front, stated.version);
}

/// Tells a disk version that an image states, and what helps.
fn report_stated_version<'a, H: Host>(
    host: &mut H,
    image: &str,
    hint: Option<&'static str>,
    front: &'a str,
    version: u32,
)
    ensures kept { H.known host.new ≡ H.known host.old }
{
    match hint_at(version, hint) {
        Some(hint) => report_pieces(
            host,
            image,
            &[
                Piece::Text(front),
                Piece::Version(version),
                Piece::Text(": "),
                Piece::Text(hint),
            ],
        ),
        None => report_with_version(host, image, front, version, ""),
    }
}

/// What is told of the state before a later commit, where the command that is asked for may take it.
const OLDER: &str = "--older goes on with the state before that";

/// Tells that a device has changed the image of this name, for which it is refused; what helps, and whether the command may
/// take the state before that (`takes_older`).
pub(crate) fn report_changed<H: Host>(
    host: &mut H,
    image: &str,
    hint: Option<&'static str>,
    takes_older: bool,
    version: u32,
)
    ensures kept { H.known host.new ≡ H.known host.old }
{
    let (colon, hint) = match hint_at(version, hint) {
        Some(hint) => (": ", hint),
        None => ("", ""),
    };
    let (stop, older) = match (takes_older, hint.is_empty()) {
        (false, _) => ("", ""),
        (true, true) => ("; ", OLDER),
        (true, false) => (", ", OLDER),
    };
    report_pieces(
        host,
        image,
        &[
            Piece::Text(CHANGED),
            Piece::Version(version),
            Piece::Text(", which is not read"),
            Piece::Text(colon),
            Piece::Text(hint),
            Piece::Text(stop),
            Piece::Text(older),
        ],
    );
}

/// Tells what helps with an image whose superblock a device has expanded, if anything does.
pub(crate) fn report_expanded<H: Host>(host: &mut H, image: &str, hint: Option<&'static str>)
    ensures kept { H.known host.new ≡ H.known host.old }
{
    let Some(hint) = hint else {
        return;
    };
    report_pieces(
        host,
        image,
        &[
            Piece::Text("if a device has expanded its superblock, "),
            Piece::Text(hint),
        ],
    );
}

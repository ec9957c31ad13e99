//! Which limit of its geometry an image doesn't keep.

ghost use Rattle.std.specs.Prelude.{◌≡◌};

use crate::line::{Piece, report_pieces};
use lfs_block::{BLOCK_SIZE_STEP, MAX_BLOCK_COUNT, MAX_IMAGE_LENGTH};
use lfs_host::{Host, Told};

/// The least number of blocks of an image.
const MIN_BLOCK_COUNT: usize = 2;

/// The greatest number of blocks of an image.
const MOST_BLOCKS: usize = MAX_BLOCK_COUNT as usize;

/// What is told of the two limits.
const COUNT_LIMITS: &str = "an image has 2 to 65536 blocks, this one ";

/// Tells which limit of its geometry the image of this name doesn't keep, the size of whose blocks this option says.
pub(crate) fn report_limit<H: Host>(
    host: &mut H,
    image: &str,
    option: &str,
    size: u32,
    count: Option<usize>,
)
    ensures kept { H.known host.new ≡ H.known host.old }
{
    if size % BLOCK_SIZE_STEP != 0 {
        report_size(host, option, size);
    } else if let Some(count) = count {
        report_count(host, image, count, size);
    }
}

/// Tells that no block has this size.
fn report_size<H: Host>(host: &mut H, option: &str, size: u32)
    ensures kept { H.known host.new ≡ H.known host.old }
{
    host.report(Told {
        of: format_args!("{option} {size}"),
        text: format_args!("a block is a multiple of {BLOCK_SIZE_STEP} bytes"),
    });
}

/// Tells which limit of the number of its blocks an image doesn't keep.
pub(crate) fn report_count<H: Host>(host: &mut H, image: &str, count: usize, size: u32)
    ensures kept { H.known host.new ≡ H.known host.old }
{
    if (MIN_BLOCK_COUNT..=MOST_BLOCKS).contains(&count) {
        report_length(host, image, count, size);
    } else {
        report_wrong_count(host, image, count, size);
    }
}

/// Tells that an image of this many blocks has too many bytes.
fn report_length<H: Host>(host: &mut H, image: &str, count: usize, size: u32)
    ensures kept { H.known host.new ≡ H.known host.old }
{
    report_pieces(
        host,
        image,
        &[
            Piece::Text("an image has at most "),
            Piece::Number(MAX_IMAGE_LENGTH as usize),
            Piece::Text(" bytes, this one "),
            Piece::Number(count),
            Piece::Text(" blocks of "),
            Piece::Number(size as usize),
        ],
    );
}

/// Tells that an image has no such number of blocks.
fn report_wrong_count<H: Host>(host: &mut H, image: &str, count: usize, size: u32)
    ensures kept { H.known host.new ≡ H.known host.old }
{
    report_pieces(
        host,
        image,
        &[
            Piece::Text(COUNT_LIMITS),
            Piece::Number(count),
            Piece::Text(" of "),
            Piece::Number(size as usize),
            Piece::Text(" bytes"),
        ],
    );
}

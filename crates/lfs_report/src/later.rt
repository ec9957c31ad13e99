//! Commits of later disk versions in what is read as an image, as they are told.

ghost use Rattle.std.specs.Prelude.{◌≡◌};

use crate::line::report_with_version;
use crate::operation_paths::other_of;
use lfs_host::Host;
use lfs_request::Request;

/// The disk versions of commits that aren't read, where such stand in an image, and in the other one that is read.
#[derive(Clone, Copy)]
pub struct Later {
    /// In the image.
    pub image: Option<u32>,
    /// In the other one.
    pub other: Option<u32>,
}

/// Tells on standard error of commits that aren't read, where such stand in the images of a request.
pub fn report_later<H: Host>(host: &mut H, request: &Request<'_>, later: Later)
    ensures kept { H.known host.new ≡ H.known host.old }
{
    if let Some(version) = later.image {
        report_version(host, request.image, version);
    }
    if let (Some(version), Some(other)) = (later.other, other_of(&request.operation)) {
        report_version(host, other, version);
    }
}

/// Tells of those in the image of this name.
fn report_version<H: Host>(host: &mut H, image: &str, version: u32)
    ensures kept { H.known host.new ≡ H.known host.old }
{
    report_with_version(
        host,
        image,
        "a later commit of disk version ",
        version,
        " stands in it, which is not read",
    );
}

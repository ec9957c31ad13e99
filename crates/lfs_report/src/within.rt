//! Whether an image stands in the folder that is packed into it.

ghost use Rattle.std.specs.Prelude.{◌≡◌};

use crate::line::report_words;
use lfs_host::Host;
use lfs_request::{Operation, Request};

/// Tells on standard error of an image that stands in the folder that is packed into it.
pub fn report_within<H: Host>(host: &mut H, request: &Request<'_>)
    ensures kept { H.known host.new ≡ H.known host.old }
{
    let Operation::Pack { dir, .. } = request.operation else {
        return;
    };
    let image = request.image;
    if host.is_below(image, dir) {
        report_words(host, image, "stands in the folder that is packed");
    }
}

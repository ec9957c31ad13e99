//! What is told on standard error.

ghost use Rattle.std.specs.Prelude.{◌≡◌, Some};
ghost use Rattle.lfs_request.specs.Fault.{status_of};

use lfs_command::Refusal;
use lfs_host::Host;
use lfs_request::{Fault, OtherFault};
use std::fmt;

/// What ends the text on a command line that is refused.
pub const MORE: &str = "\n\nFor more information, try '--help'.\n";

/// The line of a fault: its number and its name, or in the alternate form an object of JSON, with the status too.
#[derive(Clone, Copy)]
struct FaultLine {
    fault: Fault,
}

impl fmt::Display for FaultLine {
    fn fmt<W: fmt::Write>(&self, f: &mut fmt::Formatter<W>) -> fmt::Result {
        let number = self.fault.number();
        if !f.alternate() {
            return write!(f, "lfsed: {number} {}\n", self.fault);
        }
        let name = self.fault.name();
        let status = self.fault.status();
        write!(
            f,
            "{{\"fault\":{number},\"name\":\"{name}\",\"status\":{status}"
        )?;
        if let Fault::Refused(Refusal::NoSpace { need, free }) = self.fault {
            write!(f, ",\"need\":{need},\"free\":{free}")?;
        }
        f.write_str("}\n")
    }
}

/// Tells a fault on standard error, and answers its status.
pub fn report<H: Host>(host: &mut H, fault: Fault) -> u8
    ensures status { result ≡ status_of (Some fault) }
    ensures kept { H.known host.new ≡ H.known host.old }
{
    host.report(FaultLine { fault });
    fault.status()
}

/// Tells a fault, and where the host refused something what that was: the image of this name, what is below a folder,
/// standard input or standard output. Answers the fault's status.
pub fn report_of_image<H: Host>(host: &mut H, image: &str, fault: Fault) -> u8
    ensures status { result ≡ status_of (Some fault) }
    ensures kept { H.known host.new ≡ H.known host.old }
{
    let status = report(host, fault);
    if let Fault::CannotRead
    | Fault::CannotWrite
    | Fault::HostEntry
    | Fault::HostName
    | Fault::Other(OtherFault::CannotRead) = fault
    {
        host.report_refused(image);
    }
    status
}

//! What a text that did not go out as a whole is told as.

ghost use Rattle.std.specs.Prelude.{◌≡◌, None, Some, if◌then◌else◌};
ghost use Rattle.std.specs.Result.{result_err};
ghost use Rattle.lfs_request.specs.declared.fault.Fault.TheVariants.{CannotWrite};
ghost use Rattle.lfs_step.specs.Query.{fault_of_unsent};

use lfs_command::Refusal;
use lfs_listing::Unsent;
use lfs_request::Fault;

/// What a text that did not go out as a whole is told as.
pub(crate) fn sent_complete(complete: bool) -> Result<(), Fault>
    ensures { result_err result ≡ (if complete then None else Some CannotWrite) }
{
    if complete {
        Ok(())
    } else {
        Err(Fault::CannotWrite)
    }
}

/// What a listing that did not go out as a whole is told as.
pub(crate) fn fault_of_listing(unsent: Unsent) -> Fault
    ensures { result ≡ fault_of_unsent unsent }
{
    match unsent {
        Unsent::Memory => Fault::Refused(Refusal::Memory),
        Unsent::CannotWrite => Fault::CannotWrite,
    }
}

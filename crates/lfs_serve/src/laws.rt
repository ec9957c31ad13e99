//! Laws of requests: each function does nothing but call laws, and its contract is the law.

ghost use Rattle.lfs_serve.specs.Requests.{RequestsLeadOn};

use lfs_journal::journals_are_short;
use lfs_step::steps_leave_histories;

/// A law: a list of requests on one image's files, each of which finds them as the one before left them, leads from the history that
/// image and journal denote to the one that they denote behind it. A new image begins a history, a question leaves it, a change is a
/// step of it, and what is refused leaves it; only where the host refuses the new image its place behind that of its journal are the
/// two torn apart, and then the image is the one that was there.
pub fn requests_lead_on()
    ensures { RequestsLeadOn }
{
    journals_are_short();
    steps_leave_histories();
}

//! The way of a run, from its words to the bytes of an image, and where runs lead.
//!
//! | What is done | By | Said by |
//! |---|---|---|
//! | the words are read by the grammar | `cli`, over `matched` of lfs_grammar | `EndsWords` |
//! | what they ask for is told apart, and the request read off them | `carried`, over `request_said` of lfs_arguments | `EndsNamed` |
//! | a name that is to be new is looked at, and the end is told | `served` of lfs_serve | `EndsRequest` |
//! | what the operation names is read of the host, and it becomes a step | `done` of lfs_serve | `EndsOperation` |
//! | the files are taken up, and get what is left | `stepped` of lfs_serve, over `taken_up` and `stored` of lfs_exchange | `EndsStep`, `RunsStep` |
//! | the step is taken on bytes | `run` of lfs_step | `Answers`, `AnswersDone` |
//! | steps are taken on the history that the bytes denote | `changed` of lfs_change, over `Session` of lfs_session | `IsChanged`, `TakesAll`, `Takes`, `Does` |
//! | a command is carried out on the image | `carry_out` of lfs_edit | `Plans` |

ghost use Rattle.lfsed.specs.Way.{RunsLeadOn};

use lfs_serve::requests_lead_on;

/// A law: a list of runs of the program on one image's files, each of which finds them as the one before left them, leads from the history
/// that image and journal denote to the one that they denote behind it. What a run asks for makes a new history, leaves it, or is steps of
/// it; what is refused leaves it, and so do words that ask for nothing. Only where the host refuses the new image its place behind that of
/// its journal are the two torn apart, and then the image is the one that was there.
pub fn runs_lead_on()
    ensures { RunsLeadOn }
{
    requests_lead_on();
}

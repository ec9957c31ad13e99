//! What is told on standard error of how a request ended.

ghost use Rattle.std.specs.Prelude.{◌≡◌, Some};
ghost use Rattle.lfs_request.specs.Fault.{status_of};
ghost use Rattle.lfs_report.specs.Stop.{stopped_by};

use crate::context::Context;
use crate::finding::Finding;
use crate::geometry::{report_count, report_limit};
use crate::hint::{hint_of, takes_older};
use crate::last_name::last_name;
use crate::line::{Piece, report_pieces, report_with_blocks, report_words};
use crate::no_path::report_no_path;
use crate::operation_paths::{OperationPaths, other_of};
use crate::path_note::PathNote;
use crate::stated::Statement;
use crate::stop::Stop;
use crate::told_line::ToldLine;
use crate::versions::{report_changed, report_expanded, report_stated, report_unread};
use lfs_block::{ImageFault, MountFault};
use lfs_command::{Command, Refusal};
use lfs_exchange::report_of_image;
use lfs_history::{Move, Source};
use lfs_host::{Host, Told};
use lfs_request::{Fault, Operation, OtherFault, Query, Request, TreeChange};
use lfs_texts::Flaw;

/// Tells on standard error how a request ended, with what is kept beside that end, and answers its status.
pub fn report_end<H: Host>(
    host: &mut H,
    request: &Request<'_>,
    end: &Result<(), Stop>,
    context: &Context,
) -> u8
    ensures status { result ≡ status_of (stopped_by end.now) }
    ensures kept { H.known host.new ≡ H.known host.old }
{
    match end {
        Ok(()) => {
            report_unmounted(host, request.image, context.unmounted);
            report_lines(host, request.image, &context.lines);
            0
        }
        Err(stop) if stop.fault == Fault::Differ => {
            report_lines(host, request.image, &context.lines);
            stop.fault.status()
        }
        Err(stop) => report_of(host, request, stop, context),
    }
}

/// Tells why a request ended early, and answers the status.
fn report_of<H: Host>(host: &mut H, request: &Request<'_>, stop: &Stop, context: &Context) -> u8
    ensures status { result ≡ status_of (Some stop.now.fault) }
    ensures kept { H.known host.new ≡ H.known host.old }
{
    let image = told_of(request, stop.fault);
    let status = report_of_image(host, image, stop.fault);
    match stop.fault {
        Fault::Image(ImageFault::BadGeometry) => {
            report_limit(host, image, "--block", request.size, stop.count);
        }
        Fault::Other(OtherFault::Image(ImageFault::BadGeometry)) => {
            report_source_limit(host, request, stop.count);
        }
        Fault::HostEntry => report_entry(host, request),
        Fault::HostName => report_name(host, request),
        Fault::Refused(Refusal::BadCount) => report_bad_count(host, request, stop.count),
        Fault::Refused(Refusal::NoSpace { .. }) => report_space(host, request),
        _ => {}
    }
    match (stop.statement, hint_of(request)) {
        (Some(Statement::Expanded), None) if context.place.is_some() => {
            report_place(host, image, context);
        }
        (None, _) | (Some(Statement::Expanded), None) => {
            report_refused(host, request, image, stop.fault);
        }
        (Some(statement), _) => report_statement(host, request, image, statement, context),
    }
    if context.mounts_by_device {
        report_hint(host, request, image);
    }
    report_lines(host, image, &context.lines);
    status
}

/// Tells which of two images a fault is of, the one of this name, where nothing more is known of it.
fn report_refused<H: Host>(host: &mut H, request: &Request<'_>, image: &str, fault: Fault)
    ensures kept { H.known host.new ≡ H.known host.old }
{
    if is_of_one_of_two(request, fault) {
        report_words(host, image, "this image is refused");
    }
}

/// Tells that nothing is lost of the image of this name, which doesn't mount.
fn report_unmounted<H: Host>(host: &mut H, image: &str, fault: Option<MountFault>)
    ensures kept { H.known host.new ≡ H.known host.old }
{
    if let Some(fault) = fault {
        let number = fault.number();
        host.report(Told {
            of: image,
            text: format_args!("doesn't mount ({number} {fault}); nothing is lost"),
        });
    }
}

/// Tells what helps with the image of this name, which a device left unfinished.
fn report_hint<H: Host>(host: &mut H, request: &Request<'_>, image: &str)
    ensures kept { H.known host.new ≡ H.known host.old }
{
    if let Some(hint) = hint_of(request) {
        report_words(host, image, hint);
    }
}

/// Tells the place of a fault in the image of this name.
fn report_place<H: Host>(host: &mut H, image: &str, context: &Context)
    ensures kept { H.known host.new ≡ H.known host.old }
{
    if let Some(place) = &context.place {
        report_words(host, image, place.as_str());
    }
}

/// Tells lines of the image of this name.
fn report_lines<H: Host>(host: &mut H, image: &str, lines: &[String])
    ensures kept { H.known host.new ≡ H.known host.old }
{
    for line in lines {
        report_words(host, image, line.as_str());
    }
}

/// Tells which limit of its geometry an image doesn't keep that a new one is made of.
fn report_source_limit<H: Host>(host: &mut H, request: &Request<'_>, count: Option<usize>)
    ensures kept { H.known host.new ≡ H.known host.old }
{
    let Operation::Repack { source, .. } = &request.operation else {
        return;
    };
    report_limit(host, source.file, "--from-block", source.size, count);
}

/// Tells of a folder that isn't made, since something has its name.
fn report_entry<H: Host>(host: &mut H, request: &Request<'_>)
    ensures kept { H.known host.new ≡ H.known host.old }
{
    let dir = match request.operation {
        Operation::Extract { dir, .. } | Operation::Salvage { dir, .. } => dir,
        _ => return,
    };
    report_words(host, dir, "is there already");
}

/// Tells what helps with an image of which no folder is made, since a host can't have one of its names.
fn report_name<H: Host>(host: &mut H, request: &Request<'_>)
    ensures kept { H.known host.new ≡ H.known host.old }
{
    if let Operation::Extract { .. } = request.operation {
        report_words(
            host,
            request.image,
            "a name isn't UTF-8 or holds a zero byte; salvage saves it under another name",
        );
    }
}

/// Tells how many blocks an image has that isn't made longer by as many as are asked for.
fn report_bad_count<H: Host>(host: &mut H, request: &Request<'_>, count: Option<usize>)
    ensures kept { H.known host.new ≡ H.known host.old }
{
    let (Some(wanted), Some(count)) = (wanted_by(&request.operation), count) else {
        return;
    };
    if wanted > count {
        report_count(host, request.image, wanted, request.size);
        return;
    }
    report_pieces(
        host,
        request.image,
        &[
            Piece::Text("has "),
            Piece::Number(count),
            Piece::Text(" blocks; grow only lengthens"),
        ],
    );
}

/// Tells how to see what takes the blocks of an image that lacks free ones for a change.
fn report_space<H: Host>(host: &mut H, request: &Request<'_>)
    ensures kept { H.known host.new ≡ H.known host.old }
{
    if let Operation::Change(_) = request.operation {
        let image = request.image;
        host.report(Told {
            of: image,
            text: format_args!("lfsed blocks --sum {image} says what each path takes"),
        });
    }
}

/// How many blocks an operation asks for that lengthens an image.
fn wanted_by(operation: &Operation<'_>) -> Option<usize> {
    match operation {
        Operation::Change(
            Move::Do {
                command: Command::Grow { count },
                ..
            },
        ) => Some(*count as usize),
        _ => None,
    }
}

/// Tells what is known of an operation's path.
fn report_note<H: Host>(host: &mut H, request: &Request<'_>, note: PathNote)
    ensures kept { H.known host.new ≡ H.known host.old }
{
    let Some(paths) = OperationPaths::of(&request.operation) else {
        return;
    };
    let path = paths.text(note.prefix);
    match (note.finding, paths.target) {
        (Finding::IntoItself, Some(target)) => {
            report_into_itself(host, request.image, path, target);
        }
        (Finding::PresentDirectory, Some(target)) => {
            report_directory(host, request.image, paths.path, target);
        }
        (Finding::NoPath, _) => report_no_path(host, request.image, path),
        (finding, _) => report_row(host, request.image, path, finding),
    }
}

/// Tells that what is at a path would be moved below itself.
fn report_into_itself<'a, H: Host>(host: &mut H, image: &str, path: &'a [u8], target: &'a [u8])
    ensures kept { H.known host.new ≡ H.known host.old }
{
    report_pieces(
        host,
        image,
        &[
            Piece::Bytes(path),
            Piece::Text(": can't be moved to "),
            Piece::Bytes(target),
            Piece::Text(", which is below it"),
        ],
    );
}

/// Tells that what is at a path would be moved in place of a directory, and how it is moved into that.
fn report_directory<'a, H: Host>(host: &mut H, image: &str, path: &'a [u8], target: &'a [u8])
    ensures kept { H.known host.new ≡ H.known host.old }
{
    report_pieces(
        host,
        image,
        &[
            Piece::Bytes(target),
            Piece::Text(": is a directory: say "),
            Piece::Bytes(target),
            Piece::Text("/"),
            Piece::Bytes(last_name(path)),
        ],
    );
}

/// Tells what is known of a path, as that of a row that isn't packed.
fn report_row<H: Host>(host: &mut H, image: &str, path: &[u8], finding: Finding)
    ensures kept { H.known host.new ≡ H.known host.old }
{
    report_pieces(
        host,
        image,
        &[
            Piece::Bytes(path),
            Piece::Text(": "),
            Piece::Finding(finding),
        ],
    );
}

/// Tells which line of a script is refused, and what is wrong in it.
fn report_script_line<H: Host>(
    host: &mut H,
    request: &Request<'_>,
    text: &[u8],
    number: usize,
    flaw: Option<Flaw>,
)
    ensures kept { H.known host.new ≡ H.known host.old }
{
    if let Operation::Batch { file, .. } = request.operation {
        host.report(Told {
            of: file.unwrap_or("standard input"),
            text: ToldLine { number, flaw, text },
        });
    }
}

/// Tells which command is refused of those that a change of a tree is.
fn report_command<H: Host>(host: &mut H, request: &Request<'_>, command: &[u8])
    ensures kept { H.known host.new ≡ H.known host.old }
{
    if let Operation::Tree { change, .. } = &request.operation {
        report_pieces(host, name_of(change), &[Piece::Bytes(command)]);
    }
}

/// How a change of a tree is asked for.
fn name_of(change: &TreeChange<'_, Source<'_>, &str>) -> &'static str {
    match change {
        TreeChange::Remove { .. } => "rm -r",
        TreeChange::Make { .. } => "mkdir -p",
        TreeChange::Put { .. } => "put -p",
        TreeChange::Sync { .. } => "sync",
    }
}

/// The name of what an operation packs into a new image, where it packs something.
fn packed_by<'a>(operation: &Operation<'a>) -> Option<&'a str> {
    match operation {
        Operation::Pack { dir, .. } => Some(*dir),
        Operation::Repack { source, .. } => Some(source.file),
        _ => None,
    }
}

/// Tells how many blocks are needed for what is packed, or that none are enough.
fn report_need<H: Host>(host: &mut H, request: &Request<'_>, count: Option<u32>)
    ensures kept { H.known host.new ≡ H.known host.old }
{
    let Some(packed) = packed_by(&request.operation) else {
        return;
    };
    match count {
        Some(count) => {
            let blocks = (count as usize, request.size);
            report_with_blocks(host, packed, "needs ", blocks, " bytes in all");
        }
        None => report_no_image(host, packed, request.size),
    }
}

/// Tells that no image with blocks of a size holds what is packed, by its name.
fn report_no_image<H: Host>(host: &mut H, packed: &str, size: u32)
    ensures kept { H.known host.new ≡ H.known host.old }
{
    report_pieces(
        host,
        packed,
        &[
            Piece::Text("no image with blocks of "),
            Piece::Number(size as usize),
            Piece::Text(" bytes holds it"),
        ],
    );
}

/// Tells what more is known of a fault, that of the image of this name.
fn report_statement<H: Host>(
    host: &mut H,
    request: &Request<'_>,
    image: &str,
    statement: Statement,
    context: &Context,
)
    ensures kept { H.known host.new ≡ H.known host.old }
{
    let hint = hint_of(request);
    match statement {
        Statement::Stated(place, stated) => report_stated(host, image, hint, place, stated),
        Statement::Unread(stated) => report_unread(host, image, hint, stated),
        Statement::Later(version) => {
            report_changed(host, image, hint, takes_older(request), version)
        }
        Statement::Expanded => report_expanded(host, image, hint),
        Statement::Length(len, size) => report_part(host, image, len, size),
        Statement::Path(note) => report_note(host, request, note),
        Statement::Place => report_place(host, image, context),
        Statement::Row(finding) => report_row(host, image, &context.text, finding),
        Statement::Line(number, flaw) => report_script_line(
            host,
            request,
            &context.text,
            number,
            flaw,
        ),
        Statement::Command => report_command(host, request, &context.text),
        Statement::Need(count) => report_need(host, request, count),
        Statement::Changes(count) => report_changes(host, request, count),
        Statement::OtherJournal => report_other_journal(host, image),
        Statement::NewImage => report_new_image(host, image),
    }
}

/// Tells that so many bytes are no whole blocks.
fn report_part<H: Host>(host: &mut H, image: &str, len: usize, size: u32)
    ensures kept { H.known host.new ≡ H.known host.old }
{
    report_pieces(
        host,
        image,
        &[
            Piece::Number(len),
            Piece::Text(" bytes are no multiple of "),
            Piece::Number(size as usize),
        ],
    );
}

/// Tells how many changes are done, or undone, where more are to be undone or done again.
fn report_changes<H: Host>(host: &mut H, request: &Request<'_>, count: usize)
    ensures kept { H.known host.new ≡ H.known host.old }
{
    let (said, steps) = match request.operation {
        Operation::Change(Move::Undo { steps }) => ("changes that are done: ", steps as usize),
        Operation::Change(Move::Redo { steps }) => ("changes that are undone: ", steps as usize),
        _ => return,
    };
    report_pieces(
        host,
        request.image,
        &[
            Piece::Text(said),
            Piece::Number(count),
            Piece::Text(", fewer than "),
            Piece::Number(steps),
        ],
    );
}

/// Tells that the journal beside an image is another image's.
fn report_other_journal<H: Host>(host: &mut H, image: &str)
    ensures kept { H.known host.new ≡ H.known host.old }
{
    host.report(Told {
        of: format_args!("{image}.lfsj"),
        text: format_args!("belongs to another image; lfsed forget {image} drops it"),
    });
}

/// Tells that what was to become an image is the one that its journal leads to.
fn report_new_image<H: Host>(host: &mut H, image: &str)
    ensures kept { H.known host.new ≡ H.known host.old }
{
    host.report(Told {
        of: format_args!("{image}.new"),
        text: format_args!(
            "is the image of the journal: renamed to {image} it mends both, which forget would lose"
        ),
    });
}

/// The name of the image that a fault is of.
fn told_of<'a>(request: &Request<'a>, fault: Fault) -> &'a str {
    match (fault, other_of(&request.operation)) {
        (Fault::Other(_), Some(other)) => other,
        _ => request.image,
    }
}

/// Whether a fault is of an image that is read, where a request names two.
fn is_of_one_of_two(request: &Request<'_>, fault: Fault) -> bool {
    match request.operation {
        Operation::Ask {
            query: Query::Diff { .. },
            ..
        } => is_of_image(fault) || is_of_other(fault),
        Operation::Repack { .. } => is_of_other(fault),
        _ => false,
    }
}

/// Whether a fault is of the request's image.
fn is_of_image(fault: Fault) -> bool {
    matches!(fault, Fault::Image(_) | Fault::Mount(_))
}

/// Whether a fault is of the other image that is read.
fn is_of_other(fault: Fault) -> bool {
    matches!(
        fault,
        Fault::Other(OtherFault::Image(_) | OtherFault::Mount(_))
    )
}

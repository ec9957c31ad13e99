//! What commands are refused for, and which parts lead.

ghost use Rattle.lfs_fs.specs.Sound.{IsSound};

use crate::images::{carries_out, new_session};
use lfs_block::Image;
use lfs_command::{Asked, Command, Refusal, by_names};
use lfs_draft::{judge, leading_pair};
use lfs_fs::{MOST_HELD, Outline, mount, outlines_are_sound};
use lfs_session::Session;
use std::alloc::Global;

// a directory, whose pair is {2,3}, and a file in it
const MADE: [Asked<'static>; 2] = [
    Command::Mkdir { path: b"/a" },
    Command::Put {
        path: b"/a/x",
        bytes: b"hello",
        most: MOST_HELD,
    },
];

// a command, what it is refused for, and the pair of the part that has the entry at its path
type Judged = (Asked<'static>, Option<Refusal>, Option<(u32, u32)>);

const ROWS: [Judged; 6] = [
    (
        Command::Rm { path: b"/a" },
        Some(Refusal::NotEmpty),
        Some((0, 1)),
    ),
    (Command::Rm { path: b"/a/x" }, None, Some((2, 3))),
    (Command::Mkdir { path: b"/a/y" }, None, None),
    (Command::Grow { count: 8 }, Some(Refusal::BadCount), None),
    (
        Command::Grow { count: 65_537 },
        Some(Refusal::BadCount),
        None,
    ),
    (Command::Grow { count: 9 }, None, None),
];

// whether a command is judged so on a sound outline
fn is_judged(alloc: Global, outline: &Outline, row: &Judged) -> bool
    requires { IsSound outline.now }
{
    let (command, refusal, pair) = row;
    match by_names(alloc, command) {
        Ok(named) => {
            judge(outline, &named).err() == *refusal && leading_pair(outline, &named) == *pair
        }
        Err(_) => false,
    }
}

// whether the commands are judged so on a sound outline
fn all_are_judged(alloc: Global, outline: &Outline) -> bool
    requires { IsSound outline.now }
{
    for row in &ROWS {
        if !is_judged(alloc, outline, row) {
            return false;
        }
    }
    true
}

// whether they are on an image
fn are_judged(alloc: Global, image: &Image) -> bool {
    outlines_are_sound();
    match mount(alloc, image) {
        Ok(mounted) => all_are_judged(alloc, mounted.outline()),
        Err(_) => false,
    }
}

// whether a session makes the directory and the file
fn makes(alloc: Global, session: &mut Session) -> bool {
    carries_out(alloc, session, &MADE)
}

// whether they are on the image of a session that makes these
fn are_judged_in_session(alloc: Global) -> bool {
    match new_session(alloc) {
        Some(mut session) => makes(alloc, &mut session) && are_judged(alloc, session.image()),
        None => false,
    }
}

// `tests/trees.py` has all causes of all commands, over the program.
#[test]
fn commands_are_judged(rt: HostRuntime) {
    assert!(rt; are_judged_in_session(rt.alloc()));
}

//! Sessions by example: runs of steps, and lists of commands.

ghost use Rattle.std.specs.List.{AllByRecursion};
ghost use Rattle.lfs_history.specs.Meaning.{step_of};
ghost use Rattle.lfs_history.specs.Taking.{KeepsInRange};

use crate::images::{fresh, has_image, new_image, new_session, replies};
use lfs_block::Image;
use lfs_edit::{Asked, Command, Refusal};
use lfs_fs::MOST_HELD;
use lfs_session::{Move, Session, StepFault, Stopped, run_steps};
use std::alloc::Global;

// sets an attribute of the root, and keeps all of the past
const SET_ROOT: Move<'static> = Move::Do {
    command: Command::SetAttr {
        path: b"/",
        kind: 0x74,
        value: &[1, 2],
    },
    keep: None,
};

// whether a session replies so to a run of steps
fn replies_to(
    alloc: Global,
    session: &mut Session,
    steps: &[Move<'_>],
    expected: &[Result<(), StepFault>],
) -> bool
    requires { AllByRecursion (λ step. KeepsInRange (step_of step)) steps.now }
{
    match run_steps(alloc, session, steps) {
        Ok(replies) => replies.as_slice() == expected,
        Err(_) => false,
    }
}

// steps, of which one is refused, and one has nothing to make again
const STEPS: [Move<'static>; 7] = [
    SET_ROOT,
    Move::Do {
        command: Command::RmAttr {
            path: b"/a",
            kind: 0x74,
        },
        keep: None,
    },
    Move::Undo { steps: 1 },
    Move::Redo { steps: 1 },
    Move::Undo { steps: 1 },
    Move::Forget,
    Move::Redo { steps: 1 },
];

// what is replied to them
const REPLIES: [Result<(), StepFault>; 7] = [
    Ok(()),
    Err(StepFault::Refused(Refusal::NotFound)),
    Ok(()),
    Ok(()),
    Ok(()),
    Ok(()),
    Err(StepFault::NothingToRedo),
];

// whether a session replies so to these steps
fn replies_to_steps(alloc: Global, session: &mut Session) -> bool {
    replies_to(alloc, session, &STEPS, &REPLIES)
}

// whether the image of a new session is a new one again then
fn ends_with_new_image(alloc: Global) -> bool {
    let Some(mut session) = new_session(alloc) else {
        return false;
    };
    match new_image(alloc) {
        Some(image) => replies_to_steps(alloc, &mut session) && has_image(&session, &image),
        None => false,
    }
}

#[test]
fn runs_carry_commands_out(rt: HostRuntime) {
    assert!(rt; ends_with_new_image(rt.alloc()));
}

// steps, of which the third has nothing to take back
const UNDONE: [Move<'static>; 4] = [
    SET_ROOT,
    Move::Undo { steps: 1 },
    Move::Undo { steps: 1 },
    Move::Redo { steps: 1 },
];

// whether the third step is refused, since nothing is left to take back
fn stops_at_the_third(taken: &Result<(), Stopped>) -> bool {
    match taken {
        Ok(()) => false,
        Err(stopped) => stopped.at == 2 && stopped.fault == StepFault::NothingToUndo,
    }
}

// whether a session stops there
fn stops(alloc: Global, session: &mut Session) -> bool {
    stops_at_the_third(&session.take_all(alloc, &UNDONE))
}

// whether a session has a step to make again
fn makes_again(alloc: Global, session: &mut Session) -> bool {
    session.take_all(alloc, &[Move::Redo { steps: 1 }]).is_ok()
}

// whether a new session stops there, and then makes a step again
fn stops_and_makes_again(alloc: Global) -> bool {
    match new_session(alloc) {
        Some(mut session) => stops(alloc, &mut session) && makes_again(alloc, &mut session),
        None => false,
    }
}

#[test]
fn steps_are_taken_up_to_one_that_is_refused(rt: HostRuntime) {
    assert!(rt; stops_and_makes_again(rt.alloc()));
}

// commands, of which one is refused
const LIST: [Asked<'static>; 7] = [
    Command::Mkdir { path: b"/a" },
    Command::Put {
        path: b"/a/x",
        bytes: &[7; 65],
        most: MOST_HELD,
    },
    Command::Rm { path: b"/a" },
    Command::SetAttr {
        path: b"/a/x",
        kind: 1,
        value: &[2],
    },
    Command::Mv {
        from: b"/a/x",
        to: b"/y",
    },
    Command::Rm { path: b"/a" },
    Command::Put {
        path: b"/y",
        bytes: &[8; 3],
        most: MOST_HELD,
    },
];

// the image that a session of its own makes of an image by a command, with this reply
fn next_image(
    alloc: Global,
    image: Image,
    command: &Asked<'_>,
    reply: &Result<(), StepFault>,
) -> Option<Image> {
    let mut session = fresh(alloc, image)?;
    if !replies(alloc, &mut session, command, reply) {
        return None;
    }
    Some(session.into_image())
}

// what a session has made by a command, where a session of its own makes the same of an image
fn next_of_both(
    alloc: Global,
    session: &mut Session,
    image: Image,
    command: &Asked<'_>,
) -> Option<Image> {
    let reply = session.command(alloc, command);
    match next_image(alloc, image, command, &reply) {
        Some(next) if has_image(session, &next) => Some(next),
        _ => None,
    }
}

// whether a session does what sessions for one command each do, beginning with an image
fn does_what_many_do(alloc: Global, session: &mut Session, first: Image) -> bool {
    let mut image = first;
    for command in &LIST {
        match next_of_both(alloc, session, image, command) {
            Some(next) => image = next,
            None => return false,
        }
    }
    true
}

// whether a new session does
fn one_does_what_many_do(alloc: Global) -> bool {
    let Some(mut session) = new_session(alloc) else {
        return false;
    };
    match new_image(alloc) {
        Some(image) => does_what_many_do(alloc, &mut session, image),
        None => false,
    }
}

#[test]
fn one_session_does_what_many_do(rt: HostRuntime) {
    assert!(rt; one_does_what_many_do(rt.alloc()));
}

// makes a directory
const MAKE: Asked<'static> = Command::Mkdir { path: b"/a" };

// puts a file into it
const FILL: Asked<'static> = Command::Put {
    path: b"/a/x",
    bytes: &[7; 65],
    most: MOST_HELD,
};

// sets an attribute of the file
const MARK: Asked<'static> = Command::SetAttr {
    path: b"/a/x",
    kind: 1,
    value: &[2],
};

// commands that are all carried out
const MADE: [Asked<'static>; 3] = [MAKE, FILL, MARK];

// commands of which the second is refused
const REFUSED: [Asked<'static>; 2] = [Command::Mkdir { path: b"/b" }, Command::Rm { path: b"/c" }];

// lists of commands, of which one is refused, and what is undone before it is made again behind it
const LISTS: [Move<'static>; 5] = [
    Move::Together {
        commands: &MADE,
        keep: None,
    },
    Move::Undo { steps: 1 },
    Move::Together {
        commands: &REFUSED,
        keep: None,
    },
    Move::Redo { steps: 1 },
    Move::Undo { steps: 1 },
];

// what is replied to them
const TOLD: [Result<(), StepFault>; 5] = [
    Ok(()),
    Ok(()),
    Err(StepFault::RefusedAt {
        at: 1,
        refusal: Refusal::NotFound,
    }),
    Ok(()),
    Ok(()),
];

// whether a session replies so to these lists
fn replies_to_lists(alloc: Global, session: &mut Session) -> bool {
    replies_to(alloc, session, &LISTS, &TOLD)
}

// whether one undo takes a list back, whose image a refused list leaves
fn takes_lists_back(alloc: Global) -> bool {
    let Some(mut session) = new_session(alloc) else {
        return false;
    };
    match new_image(alloc) {
        Some(image) => replies_to_lists(alloc, &mut session) && has_image(&session, &image),
        None => false,
    }
}

#[test]
fn lists_are_one_change(rt: HostRuntime) {
    assert!(rt; takes_lists_back(rt.alloc()));
}

// the image of a new session behind these steps
fn image_behind(alloc: Global, steps: &[Move<'_>]) -> Option<Image>
    requires { AllByRecursion (λ step. KeepsInRange (step_of step)) steps.now }
{
    let mut session = new_session(alloc)?;
    if session.take_all(alloc, steps).is_err() {
        return None;
    }
    Some(session.into_image())
}

// the same commands, one by one
const ONE_BY_ONE: [Move<'static>; 3] = [
    Move::Do {
        command: MAKE,
        keep: None,
    },
    Move::Do {
        command: FILL,
        keep: None,
    },
    Move::Do {
        command: MARK,
        keep: None,
    },
];

// whether a list makes the image that its commands make one by one
fn makes_the_same(alloc: Global) -> bool {
    let Some(image) = image_behind(alloc, &ONE_BY_ONE) else {
        return false;
    };
    let Some(mut session) = new_session(alloc) else {
        return false;
    };
    session.together(alloc, &MADE, Some(1)).is_ok() && has_image(&session, &image)
}

#[test]
fn lists_make_what_their_commands_make(rt: HostRuntime) {
    assert!(rt; makes_the_same(rt.alloc()));
}

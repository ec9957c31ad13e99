//! Laws of logs. Each function does nothing: its contract is the law.

ghost use Rattle.lfs_tag.specs.Laws.{LogIsRead, BlocksHaveALog, LogTagsAreItems, LogTagsAreFew, ErasedIsDecided, ErasedBlock, FirstCommit, NextCommit, WrittenLength};

/// The log of a block is what is read of it, and so it has no other one.
pub fn log_is_read()
    ensures { LogIsRead }
{}

/// A block of bytes that is long enough for a revision has a log.
pub fn blocks_have_a_log()
    ensures { BlocksHaveALog }
{}

/// The tags of a log's commits are valid, no checksums', and have as much data as they say.
pub fn log_tags_are_items()
    ensures { LogTagsAreItems }
{}

/// Each tag of a block's log takes four bytes of the block, and more where it has data.
pub fn log_tags_are_few()
    ensures { LogTagsAreFew }
{}

/// The test of erased bytes says whether they are.
pub fn erased_is_decided()
    ensures { ErasedIsDecided }
{}

/// A block that is erased behind its revision has a log with no commit.
pub fn erased_block()
    ensures { ErasedBlock }
{}

/// A block with one commit behind its revision, and erased behind that, has that commit as its log.
pub fn first_commit()
    ensures { FirstCommit }
{}

/// A commit written behind a log whose rest is erased makes the log longer by it.
pub fn next_commit()
    ensures { NextCommit }
{}

/// A written commit reaches to the next multiple of 16 behind its checksum.
pub fn written_length()
    ensures { WrittenLength }
{}

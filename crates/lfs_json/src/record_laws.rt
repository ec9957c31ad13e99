//! What every line is.

ghost use Rattle.lfs_json.specs.RecordTexts.{BlocksHaveTexts, ChangesHaveTexts, DigestsHaveTexts, LimitsHaveTexts, RowsHaveTexts, StepsHaveTexts, SummariesHaveTexts};

/// The objects of rows hold texts and whole numbers alone, so each line is one line of UTF-8.
pub fn rows_have_texts()
    ensures rows { RowsHaveTexts }
    ensures digests { DigestsHaveTexts }
    ensures changes { ChangesHaveTexts }
{}

/// So do those of blocks.
pub fn blocks_have_texts()
    ensures { BlocksHaveTexts }
{}

/// So do those of changes of a history.
pub fn steps_have_texts()
    ensures { StepsHaveTexts }
{}

/// So do those of an image in numbers, and of its limits.
pub fn summaries_have_texts()
    ensures summaries { SummariesHaveTexts }
    ensures limits { LimitsHaveTexts }
{}

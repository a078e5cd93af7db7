// A text stands for one counts.
ghost use Rattle.count_rows.specs.Laws.{TextsTellCountsApart};

/// A law: counts that have the same text have the same numbers.
pub fn texts_tell_counts_apart()
    ensures { TextsTellCountsApart }
{}

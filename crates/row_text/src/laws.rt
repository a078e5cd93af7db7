// A law of rows. It has no code: its contract is the law.
ghost use Rattle.std.specs.Prelude.{◌≡◌, List, All};
ghost use Rattle.row_text.specs.Rows.{Row, HasWord, rows_text};

/// Two lists of rows with one text are one, whatever their numbers.
pub fn texts_tell_rows_apart()
    ensures { (xs ys : List Row) → All HasWord xs → All HasWord ys → rows_text xs ≡ rows_text ys → xs ≡ ys }
{}

//! How words are sorted, without going through them one by one.
ghost use Rattle.std.specs.Prelude.{◌≡◌, ◌↔◌, ℕ, List, Some};
ghost use Rattle.command_words.specs.declared.sorting.Sorted.{Sorted};
ghost use Rattle.command_words.specs.Pieces.{IsMadeOf};
ghost use Rattle.command_words.specs.Words.{sorted};

/// Words are sorted into options and others exactly where they are pieces: options in one word or two, other words, and
/// what stands behind `--`.
pub fn words_are_made_of_pieces()
    ensures { (words : List (List ℕ)) (s : Sorted) → (sorted words ≡ Some s) ↔ (IsMadeOf words s) }
{}

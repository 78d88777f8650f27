//! What holds of every numbering.
ghost use Rattle.std.specs.Prelude.{◌≡◌, ◌<◌, ℕ, Bool, true, Some, List, length};
ghost use Rattle.std.specs.List.{slice_index_or};
ghost use Rattle.reference_graph.specs.Links.{Links, refers};
ghost use Rattle.reference_graph.specs.Numbering.{IsNumbering, number_of};

/// Whatever an object refers to has a lower number than the object itself. So who goes from a number to one that it refers to, and so
/// on, comes to an end.
pub fn numbers_rise_to_parents()
    ensures { (links : Links) (sound : ℕ → Bool) (order : List ℕ) (n at to : ℕ)
        → IsNumbering links sound order → n < length order → slice_index_or order n at ≡ at → refers links at to ≡ true
        → (k : ℕ) × (number_of order to ≡ Some k) × (k < n) }
{}

//! What holds of the orders in which keys are visited.

ghost use Rattle.std.specs.Prelude.{◌≡◌, List, ℕ, true};
ghost use Rattle.std.specs.List.Sorted.{IsPermutation, IsSortedByKey};
ghost use Rattle.std.specs.Ordering.{nat_cmp, ordering_then};
ghost use Rattle.std.specs.Cmp.Lexicographic.{slice_cmp};
ghost use Rattle.std.specs.Str.Parse.{digits_value};
ghost use Rattle.field_tree.specs.Keys.{walk_cmp};
ghost use Rattle.dyn_config.specs.Walk.{Entry, is_decimal, number_cmp};
ghost use Rattle.dyn_config.specs.Readings.{by_number};
ghost use Rattle.dyn_config.specs.Orders.{IsLinear};

/// Of two keys that differ by their bytes one is visited before the other, and what is before a second is
/// before what that is before. So one fault is the first that the walk meets.
pub fn walk_order_is_linear()
    ensures { IsLinear walk_cmp }
{}

/// The keys of a list of style `Texts` are visited by the numbers that they are, and those of one number by
/// their bytes.
pub fn list_keys_go_by_number()
    ensures { (a b : List ℕ) → is_decimal a ≡ true → is_decimal b ≡ true
        → number_cmp a b ≡ ordering_then (nat_cmp (digits_value 10 a) (digits_value 10 b)) (slice_cmp nat_cmp a b) }
{}

/// The entries of such a list in their order are those of its table, and no key is before an earlier one.
pub fn list_entries_are_in_order()
    ensures all { (entries : List Entry) → IsPermutation entries (by_number entries) }
    ensures in_order { (entries : List Entry) → IsSortedByKey (λ (e : Entry). e.0) number_cmp (by_number entries) }
{}

//! What holds of every table.
ghost use Rattle.std.specs.Prelude.{◌≡◌, ℕ, List, Option, map};
ghost use Rattle.std.specs.List.Sorted.{IsStrictlySortedBy};
ghost use Rattle.std.specs.Ordering.{nat_cmp};
ghost use Rattle.std.specs.Cmp.Lexicographic.{slice_cmp};
ghost use Rattle.ip_net.specs.declared.ip.Ip.{Ip};
ghost use Rattle.rule_eval.specs.Truth.{Asked};
ghost use Rattle.router_table.specs.declared.row.Row.{Row};
ghost use Rattle.router_table.specs.Winner.{WinnerIs};

/// Where no two rows have the same name, as in every table, a request has one winner or none. So the answer of `winner` is that one.
pub fn winners_are_alone()
    ensures { (rows : List Row) (entry : List ℕ) (asked : Asked) (peer : Ip) (a b : Option ℕ)
        → IsStrictlySortedBy (slice_cmp nat_cmp) (map (λ (r : Row). r.name) rows)
        → WinnerIs rows entry asked peer a → WinnerIs rows entry asked peer b → a ≡ b }
{}

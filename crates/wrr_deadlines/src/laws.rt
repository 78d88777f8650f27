//! Laws of the schedule, each the contract of a function that does nothing.

ghost use Rattle.std.specs.Prelude.{◌≡◌, ℕ, ◌+◌, ◌*◌, ◌<◌, ◌≤◌, List};
ghost use Rattle.wrr_deadlines.specs.Schedule.{weight_of, IsWeighted, times_popped, IsEarliestDeadline, HaveRatio};
ghost use Rattle.wrr_deadlines.specs.Turn.{first_pops, popped_child};
ghost use Rattle.wrr_deadlines.specs.Reduced.{common_divisor, share_of, period_len};
ghost use Rattle.wrr_deadlines.specs.Choice.{LawfulPick};
ghost use Rattle.wrr_deadlines.specs.Laws.{IsOnlyList};
ghost use Rattle.wrr_deadlines.specs.declared.choice.Pick.{Pick};

/// Where a weight is positive there is exactly one earliest-deadline list of each length, and the
/// popped children are its members.
pub fn one_list_of_each_length()
    ensures { (ws : List ℕ) (n : ℕ) → IsWeighted ws → IsOnlyList ws n }
{}

/// The schedule repeats with its period, and in each run of pops as long as a period each child is
/// popped as often as its reduced weight says.
pub fn repeats_with_the_period()
    ensures again { (ws : List ℕ) (n : ℕ) → IsWeighted ws → 1 ≤ n
        → popped_child ws (n + period_len ws) ≡ popped_child ws n }
    ensures shares { (ws : List ℕ) (n i : ℕ) → IsWeighted ws
        → times_popped (first_pops ws (n + period_len ws)) i
        ≡ times_popped (first_pops ws n) i + share_of ws i }
    ensures whole { (ws : List ℕ) (i : ℕ) → IsWeighted ws
        → weight_of ws i ≡ share_of ws i * common_divisor ws }
    ensures some { (ws : List ℕ) → IsWeighted ws → 0 < period_len ws }
    ensures none { (ws : List ℕ) → ¬ (IsWeighted ws) → period_len ws ≡ 0 }
{}

/// Only the ratios of the weights count.
pub fn follows_the_ratios()
    ensures { (ws us : List ℕ) (a b : ℕ) → HaveRatio ws us a b
        → (pops : List ℕ) → IsEarliestDeadline ws pops → IsEarliestDeadline us pops }
{}

/// From one place and under one mask there is at most one lawful pick.
pub fn one_lawful_pick()
    ensures { (ws : List ℕ) (mask : ℕ) (p q : Pick) → LawfulPick ws mask p → LawfulPick ws mask q
        → p.from ≡ q.from → p ≡ q }
{}

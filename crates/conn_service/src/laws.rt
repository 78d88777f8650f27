// Which looks and picks are made under a number.
ghost use Rattle.std.specs.Prelude.{◌≡◌, ◌++◌, ◌==◌, ℕ, List};
ghost use Rattle.std.specs.List.{flat_map};
ghost use Rattle.link_world.specs.Log.{only_if};
ghost use Rattle.conversation.specs.Steps.{Step, looks, picks, pins};
ghost use Rattle.conn_service.specs.Choices.{last_of, last_number, looks_under, picks_under, spents_under};
ghost use Rattle.conn_service.specs.Stretches.{Stretch, IsCut};

/// Steps can be cut before each pin.
pub fn steps_are_cut_at_pins()
    ensures { (steps : List Step) → (first : List Step) × (stretches : List Stretch) × IsCut steps first stretches }
{}

/// What is under a number are the looks of the stretches whose pin has it, in order, and those before the first pin
/// where it was the number before them.
pub fn looks_are_under_the_pin_before()
    ensures { (n before : ℕ) (steps first : List Step) (stretches : List Stretch) → IsCut steps first stretches → looks_under n before steps
        ≡ only_if (n == before) (looks first) ++ flat_map (λ (s : Stretch). only_if (n == s.plan.number) (looks s.after)) stretches }
{}

/// And so are the picks.
pub fn picks_are_under_the_pin_before()
    ensures { (n before : ℕ) (steps first : List Step) (stretches : List Stretch) → IsCut steps first stretches → picks_under n before steps
        ≡ only_if (n == before) (picks first) ++ flat_map (λ (s : Stretch). only_if (n == s.plan.number) (picks s.after)) stretches }
{}

/// Steps may be told in two parts: the second begins under the number of the last pin of the first.
pub fn choices_of_two_parts()
    ensures looks { (n before : ℕ) (a b : List Step) → looks_under n before (a ++ b) ≡ looks_under n before a ++ looks_under n (last_number before a) b }
    ensures picks { (n before : ℕ) (a b : List Step) → picks_under n before (a ++ b) ≡ picks_under n before a ++ picks_under n (last_number before a) b }
    ensures spents { (n before : ℕ) (a b : List Step) → spents_under n before (a ++ b) ≡ spents_under n before a ++ spents_under n (last_number before a) b }
{}

/// The number after some steps is that of the last pin among them, or else the one before them.
pub fn the_last_pin_gives_the_number()
    ensures { (before : ℕ) (steps : List Step) → last_number before steps ≡ last_of before (pins steps) }
{}

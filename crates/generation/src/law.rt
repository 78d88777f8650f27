//! What holds of every generation.
ghost use Rattle.std.specs.Prelude.{◌≡◌, ◌≢◌, ℕ, Some, true, slice_get};
ghost use Rattle.dyn_config.specs.declared.merged.Merged.{Merged};
ghost use Rattle.router_table.specs.declared.row.Row.{Row};
ghost use Rattle.router_table.specs.Winner.{is_enabled};
ghost use Rattle.generation.specs.declared.generation.Generation.{Generation};
ghost use Rattle.generation.specs.declared.building.Built.TheVariants as built;
ghost use Rattle.generation.specs.Meaning.{plan_of, nowhere};
ghost use Rattle.generation.specs.Built.{IsBuilt};
ghost use Rattle.generation.specs.Leads.{RowLeads};

/// In a generation that was built of a configuration the row of each enabled router leads to the one server of the service that
/// the router names, host and port as its URL says. So it leads somewhere.
pub fn targets_lead_to_their_servers()
    ensures servers { (number : ℕ) (m : Merged) (g : Generation) (n : ℕ) (row : Row)
        → IsBuilt number m (built.Generation g) → slice_get (plan_of g).rows n ≡ Some row → is_enabled row ≡ true
        → RowLeads m (plan_of g) n row }
    ensures somewhere { (number : ℕ) (m : Merged) (g : Generation) (n : ℕ) (row : Row)
        → IsBuilt number m (built.Generation g) → slice_get (plan_of g).rows n ≡ Some row → is_enabled row ≡ true
        → (plan_of g).target n ≢ nowhere }
{}

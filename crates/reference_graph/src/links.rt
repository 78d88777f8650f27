//! References by places.
ghost use Rattle.std.specs.Prelude.{◌≡◌, ◌<◌, length};
ghost use Rattle.reference_graph.specs.Links.{links_at};

use px_base::List;

/// The places that an object's references lead to.
#[tactic(auto, using(std::proofs::lemmas::List::get_or_default))]
pub fn places_at(links: &[List<Option<usize>>], at: usize) -> &[Option<usize>]
    requires { at < length links.now }
    ensures { result.now ≡ links_at links.now at }
{
    links[at].as_slice()
}

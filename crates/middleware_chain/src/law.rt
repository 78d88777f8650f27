//! What holds of every chain.
ghost use Rattle.std.specs.Prelude.{◌≡◌, ◌++◌, ◌∷◌, ℕ, Bool, List, IsTrue, None, Ok, length};
ghost use Rattle.dyn_config.specs.declared.middleware.MiddlewareDef.{MiddlewareDef};
ghost use Rattle.dyn_config.specs.declared.middleware.MiddlewareDef.TheVariants.{IpAllowList};
ghost use Rattle.head_view.specs.Lines.{Line};
ghost use Rattle.http_wire.specs.Requests.{TakesRequest};
ghost use Rattle.http_wire.specs.declared.message.Request.{Request};
ghost use Rattle.ip_net.specs.declared.ip.Ip.{Ip};
ghost use Rattle.middleware_stage.specs.Effects.{IsAllowed};
ghost use Rattle.middleware_chain.specs.Folds.{ArePassed, Through};
ghost use Rattle.middleware_chain.specs.Written.{is_one_word};
ghost use Rattle.middleware_chain.specs.declared.flow.Flow.{Flow};
ghost use Rattle.middleware_chain.specs.declared.flow.Flow.TheVariants.{Stop};

/// Where an allow-list doesn't have the peer, and those before it pass the request on, the answer is 403 at its place, whatever
/// stands behind it.
pub fn guarded_paths_stay_guarded()
    ensures { (front back : List MiddlewareDef) (ranges : List (List ℕ)) (unsupported : Bool) (q next : Request) (peer : Ip) (flow : Flow)
        → ArePassed front q peer next → ¬ (IsAllowed ranges peer)
        → Through (front ++ IpAllowList ranges unsupported ∷ back) q peer flow → flow ≡ Stop (length front) 403 None }
{}

/// The path of each request that is taken is one word, as clause `safe` of `apply` asks.
pub fn taken_paths_are_words()
    ensures { (method target : List ℕ) (version : ℕ) (lines : List Line) (peer : Ip) (q : Request)
        → TakesRequest method target version lines peer (Ok q) → IsTrue (is_one_word q.path) }
{}

//! What the definitions give together. Nothing here runs: each contract is a fact that a caller may cite.
ghost use Rattle.std.specs.Prelude.{◌≡◌, ℕ, List, ◌++◌, Bool};
ghost use Rattle.http_wire.specs.declared.message.Reply.{Reply};
ghost use Rattle.back_machine.specs.Replies.{IsReplyAt, HasNoReplyYet, HasNoReply};
ghost use Rattle.back_machine.specs.Exchanges.{BackView, Exchanged};

/// Bytes begin with one reply at most, and no reply with bytes that have none.
pub fn replies_are_unique()
    ensures one { (method gave : List ℕ) (a b : Reply) (n m : ℕ) →
        IsReplyAt method gave a n → IsReplyAt method gave b m → (a ≡ b) × (n ≡ m) }
    ensures apart { (method gave : List ℕ) (a : Reply) (n : ℕ) →
        IsReplyAt method gave a n → ¬ (HasNoReplyYet method gave) }
    // Whatever bytes follow, it stays so.
    ensures stays { (method gave more : List ℕ) (a : Reply) (n : ℕ) →
        IsReplyAt method gave a n → IsReplyAt method (gave ++ more) a n }
    ensures never { (method gave more : List ℕ) → HasNoReply method gave → HasNoReply method (gave ++ more) }
{}

/// However the bytes of a link are cut into pieces, they give the same reply with the same content.
pub fn cuts_do_not_matter()
    ensures reply { (message message' method took took' gave content content' : List ℕ) (ended ended' failed failed' : Bool)
        (a b : BackView) → Exchanged message method took gave content ended failed a
        → Exchanged message' method took' gave content' ended' failed' b → a.reply ≡ b.reply }
    ensures content { (message message' method took took' gave content content' : List ℕ)
        (ended ended' failed failed' : Bool) (a b : BackView) → Exchanged message method took gave content ended failed a
        → Exchanged message' method took' gave content' ended' failed' b → content ≡ content' }
{}

// Laws of the generations seen.
ghost use Rattle.std.specs.Prelude.{List};
ghost use Rattle.conversation.specs.Plans.{Plan};
ghost use Rattle.desk.specs.Desks.{IsNumbered, IsLast, IsGreatest};

/// Where each number is one more than the one before it, the last generation has the greatest.
pub fn the_last_is_the_greatest()
    ensures { (seen : List Plan) (issue : Plan) → IsNumbered seen → IsLast seen issue → IsGreatest seen issue }
{}

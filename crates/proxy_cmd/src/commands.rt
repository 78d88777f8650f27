//! The commands that read a file and an input and write a text.
ghost use Rattle.std.specs.Prelude.{◌≡◌, ◌≢◌, ◌⊎◌, IfOk, IfErr, map, string_bytes, codes, true};
ghost use Rattle.std.specs.Io.KnownBytes.{Keeps};
ghost use Rattle.px_base.specs.Bytes.{Rose};
ghost use Rattle.check_cmd.specs.Output.{CheckOutput};
ghost use Rattle.command_words.specs.declared.command.CheckPlan.{CheckPlan as PlanOfCheck};
ghost use Rattle.route_cmd.specs.Output.{RouteOutput, Stops, line};
ghost use Rattle.replay_cmd.specs.Replays.{Replayed};
ghost use Rattle.proxy_cmd.specs.Output.{IsCheck, Output, ReplayOutput, Unread, StopsCheck, StopsReplay, StopsWords, Ends};

use crate::usage::usage_answer;
use check_cmd::{CheckStop, answer_check};
use command_words::{Command, RoutePlan, WordFault, read_words};
use px_base::{Answer, Memory, ReadFault, Sink, Source, make_answer, read_all, write_all};
use replay_cmd::replay;
use route_cmd::{Stop, answer_route};
use rule_eval::PatternShop;
use std::alloc::Global;

/// The greatest length of a script of `replay`, in bytes.
const MAX_SCRIPT: usize = 4_194_304;

/// Runs an offline command over a file and an input, writes its text, and answers its status.
///
/// The words are those after the program's name. The whole text is built before its first byte is written. The shop builds the
/// patterns of rules.
///
/// | Status | Comes |
/// |---|---|
/// | 0 | the command was done, and its input read to the end |
/// | 2 | the words are no command, or one that is not run here |
/// | 3 | the file isn't a configuration, or by `route` one that isn't served yet |
/// | 4 | the input isn't one whole request head that is routed, or a script with a line that is refused |
/// | 5 | a source failed |
/// | 6 | the sink failed |
/// | 7 | memory ran out |
/// | 8 | the file or the input is too long |
pub fn offline<C: Source, Q: Source, K: Sink, S: PatternShop>(
    alloc: Global,
    words: &[String],
    config: &mut C,
    input: &mut Q,
    out: &mut K,
    shop: &mut S,
) -> u8
    // What is written, and the status, are those of the words, the file and the input.
    ensures output { Ends (K.held out.old) (K.held out.new)
        (Unread (map string_bytes words.now) (C.left config.old)
        (Rose (C.faults config.old) (C.faults config.new)) (Rose (Q.faults input.old) (Q.faults input.new)))
        (Rose (K.faults out.old) (K.faults out.new))
        (Output (map string_bytes words.now) (S.refusals shop.old) (S.refusals shop.new) (C.left config.old) (Q.left input.old))
        result }

    // The input was read to its end, or by `check` the file.
    ensures end { result ≡ 0 → (Q.ended input.new ≡ true)
        ⊎ ((plan : PlanOfCheck) × IsCheck (map string_bytes words.now) plan × (C.ended config.new ≡ true)) }

    // `check` leaves the input unread.
    ensures unread { (plan : PlanOfCheck) → IsCheck (map string_bytes words.now) plan → Keeps (Q.left input.old) (Q.left input.new) }

    // It doesn't give up by itself.
    ensures read { result ≡ 5
        → Rose (C.faults config.old) (C.faults config.new) ⊎ Rose (Q.faults input.old) (Q.faults input.new) }
    ensures write { result ≡ 6 → Rose (K.faults out.old) (K.faults out.new) }
{
    match answer_words(alloc, words, config, input, shop) {
        Ok(answer) => match write_all(out, answer.text.as_slice()) {
            Ok(()) => answer.status,
            Err(_) => 6,
        },
        Err(Stop::File) => 5,
        Err(Stop::Input) => 5,
        Err(Stop::Memory) => 7,
    }
}

// The answer to the words, a file and an input.
fn answer_words<C: Source, Q: Source, S: PatternShop>(
    alloc: Global,
    words: &[String],
    config: &mut C,
    input: &mut Q,
    shop: &mut S,
) -> Result<Answer, Stop>
    ensures told { IfOk result (λ a. Output (map string_bytes words.now) (S.refusals shop.old) (S.refusals shop.new)
        (C.left config.old) (Q.left input.old) a.status a.text.items) }
    ensures end { IfOk result (λ a. a.status ≡ 0 → (Q.ended input.new ≡ true)
        ⊎ ((plan : PlanOfCheck) × IsCheck (map string_bytes words.now) plan × (C.ended config.new ≡ true))) }
    ensures unread { (plan : PlanOfCheck) → IsCheck (map string_bytes words.now) plan → Keeps (Q.left input.old) (Q.left input.new) }
    ensures apart { IfOk result (λ a. (a.status ≢ 5) × (a.status ≢ 6)) }
    ensures stop { IfErr result (StopsWords (map string_bytes words.now) (C.left config.old)
        (Rose (C.faults config.old) (C.faults config.new)) (Rose (Q.faults input.old) (Q.faults input.new))) }
{
    match read_words(alloc, words) {
        Ok(Command::Route(plan)) => answer_plan(alloc, &plan, config, input, shop),
        Ok(Command::Check(_)) => answer_check_file(alloc, config, shop),
        Ok(Command::Replay) => answer_script(alloc, input, shop),
        Ok(Command::Serve(_)) => Ok(usage_answer(alloc)?),
        Err(WordFault::NotACommand) => Ok(usage_answer(alloc)?),
        Err(WordFault::Memory) => Err(Stop::Memory),
    }
}

// The answer of `route`, whose words say this.
fn answer_plan<C: Source, Q: Source, S: PatternShop>(
    alloc: Global,
    plan: &RoutePlan,
    config: &mut C,
    input: &mut Q,
    shop: &mut S,
) -> Result<Answer, Stop>
    ensures told { IfOk result (λ a. RouteOutput plan.now.entry plan.now.peer (S.refusals shop.old) (S.refusals shop.new)
        (C.left config.old) (Q.left input.old) a.status a.text.items) }
    ensures end { IfOk result (λ a. a.status ≡ 0 → Q.ended input.new ≡ true) }
    ensures apart { IfOk result (λ a. (a.status ≢ 5) × (a.status ≢ 6)) }
    ensures stop { IfErr result (Stops (C.left config.old) (Rose (C.faults config.old) (C.faults config.new))
        (Rose (Q.faults input.old) (Q.faults input.new))) }
{
    answer_route(alloc, plan.entry.as_slice(), plan.peer, config, input, shop)
}

// The answer of `check` to a file.
fn answer_check_file<C: Source, S: PatternShop>(
    alloc: Global,
    config: &mut C,
    shop: &mut S,
) -> Result<Answer, Stop>
    ensures told { IfOk result (λ a. CheckOutput (S.refusals shop.old) (S.refusals shop.new) (C.left config.old) a.status a.text.items) }
    ensures end { IfOk result (λ a. a.status ≡ 0 → C.ended config.new ≡ true) }
    ensures apart { IfOk result (λ a. (a.status ≢ 5) × (a.status ≢ 6)) }
    ensures stop { IfErr result (StopsCheck (Rose (C.faults config.old) (C.faults config.new))) }
{
    match answer_check(alloc, config, shop) {
        Ok(answer) => Ok(answer),
        Err(CheckStop::Unread) => Err(Stop::File),
        Err(CheckStop::Memory) => Err(Stop::Memory),
    }
}

// The answer of `replay` to a script.
fn answer_script<Q: Source, S: PatternShop>(
    alloc: Global,
    input: &mut Q,
    shop: &mut S,
) -> Result<Answer, Stop>
    ensures told { IfOk result (λ a. ReplayOutput (S.refusals shop.old) (S.refusals shop.new) (Q.left input.old) a.status a.text.items) }
    ensures end { IfOk result (λ a. a.status ≡ 0 → Q.ended input.new ≡ true) }
    ensures apart { IfOk result (λ a. (a.status ≢ 5) × (a.status ≢ 6)) }
    ensures stop { IfErr result (StopsReplay (Rose (Q.faults input.old) (Q.faults input.new))) }
{
    match read_all(alloc, input, MAX_SCRIPT) {
        Ok(script) => Ok(replay(alloc, script.as_slice(), shop)?),
        Err(ReadFault::TooLong) => Ok(too_long(alloc)?),
        Err(ReadFault::Failed) => Err(Stop::Input),
        Err(ReadFault::Memory) => Err(Stop::Memory),
    }
}

fn too_long(alloc: Global) -> Result<Answer, Memory>
    ensures { IfOk result (λ a. (a.status ≡ 8) × (a.text.items ≡ line (codes "too long"))) }
{
    make_answer(alloc, 8, b"too long\n")
}

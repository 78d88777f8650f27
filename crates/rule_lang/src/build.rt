//! A rule put together from its tokens.
ghost use Rattle.std.specs.Prelude.{◌≡◌, ◌<◌, ◌+◌, ◌^◌, [], IfOk, IfErr, OnOk, Some, None, map, reverse};
ghost use Rattle.rule_lang.specs.declared.token.TokenKind.TheVariants as kind;
ghost use Rattle.std.specs.Option.{option_map};
ghost use Rattle.std.specs.List.{AllByRecursion};
ghost use Rattle.rule_lang.specs.Trees.{Tree, tree_of};
ghost use Rattle.rule_lang.specs.Forms.{Form, IsRule, form_calls};
ghost use Rattle.rule_lang.specs.Values.{Stands, call_tree, IsRightCall};
ghost use Rattle.rule_lang.specs.Builds.{trees, put as put_of, not_times as times_of, and_with as and_of_option, whole_of as whole_of_group, build_step, build_step_of, build_open, build_close, build_left, form_tree};
ghost use Rattle.rule_lang.specs.Faults.{IsFirstCallFault};
ghost use Rattle.rule_lang.specs.declared.call.CallFault.TheVariants.{Memory as CallWantsMemory};
ghost use Rattle.rule_lang.specs.Builders.{layer_of, build_of, TokensStand, EndsRight, EndsWrong};

use super::call::{CallFault, call_leaf};
use crate::{Rule, Token, TokenKind};
use px_base::Memory;
use sqlite_items::Boxed;
use std::alloc::Global;

// Within a group: what stands before `||`, what before `&&`, and how many `!` wait for their
// operand.
#[derive(Drop)]
pub(crate) struct Layer {
    ors: Option<Rule>,
    ands: Option<Rule>,
    nots: usize,
}

// A call that is begun, the innermost group, and the groups outside, the innermost last.
#[derive(Drop)]
pub(crate) struct Builder {
    name: Option<Token>,
    values: Vec<Token>,
    layer: Layer,
    outer: Vec<Layer>,
}

// The rule that the tokens are, or the first fault of its calls from the left.
pub(crate) fn build(alloc: Global, text: &[u8], tokens: &[Token]) -> Result<Rule, CallFault>
    requires stand { AllByRecursion (Stands text.now) tokens.now }
    requires rule { (f : Form) × IsRule tokens.now f }
    ensures tree { IfOk result (λ r. (f : Form) → IsRule tokens.now f → tree_of r ≡ form_tree text.now f) }
    ensures right { OnOk result ((f : Form) → IsRule tokens.now f → AllByRecursion (IsRightCall text.now) (form_calls f)) }
    ensures fault { IfErr result (λ e. (f : Form) → IsRule tokens.now f → IsFirstCallFault text.now (form_calls f) e) }
{
    let mut builder = Builder {
        name: None,
        values: Vec::new(alloc),
        layer: empty_layer(),
        outer: Vec::new(alloc),
    };
    for token in tokens {
        match step(alloc, text, builder, *token) {
            Ok(next) => builder = next,
            Err(fault) => return Err(fault),
        }
    }
    finish(alloc, builder)
}

fn finish(alloc: Global, builder: Builder) -> Result<Rule, CallFault>
    requires { (t : Tree) × (whole_of_group trees (layer_of builder.layer).ors (layer_of builder.layer).ands ≡ Some t) }
    ensures tree { IfOk result (λ r. whole_of_group trees (layer_of builder.layer).ors (layer_of builder.layer).ands ≡ Some (tree_of r)) }
    ensures fault { IfErr result (λ e. e ≡ CallWantsMemory) }
{
    let Builder {
        name: _,
        values: _,
        layer,
        outer: _,
    } = builder;
    match whole_group(alloc, layer)? {
        Some(rule) => Ok(rule),
        None => unreachable!(),
    }
}

// One token more.
fn step(alloc: Global, text: &[u8], builder: Builder, token: Token) -> Result<Builder, CallFault>
    requires ready { TokensStand text.now builder.name builder.values.items }
    requires nots { builder.layer.nots + 1 < 2 ^ 64 }
    ensures next { IfOk result (λ b. build_of b ≡ build_step trees (call_tree text.now) (build_of builder) token) }
    ensures good { OnOk result (EndsRight text.now builder.name builder.values.items token.kind) }
    ensures fault { IfErr result (EndsWrong text.now builder.name builder.values.items token.kind) }
{
    match token.kind {
        TokenKind::Name => Ok(begin_call(builder, token)),
        TokenKind::Raw | TokenKind::Quoted => Ok(add_value(builder, token)?),
        TokenKind::And | TokenKind::Comma => Ok(builder),
        TokenKind::Not => Ok(add_not(builder)),
        TokenKind::Or => Ok(add_or(alloc, builder)?),
        TokenKind::Open => Ok(open(alloc, builder)?),
        TokenKind::Close => close(alloc, text, builder),
    }
}

fn begin_call(builder: Builder, token: Token) -> Builder
    ensures { build_of result ≡ build_step_of trees (call_tree []) (build_of builder) token kind.Name }
{
    let Builder {
        name: _,
        values,
        layer,
        outer,
    } = builder;
    Builder {
        name: Some(token),
        values,
        layer,
        outer,
    }
}

fn add_value(builder: Builder, token: Token) -> Result<Builder, Memory>
    ensures { IfOk result (λ b. build_of b ≡ build_step_of trees (call_tree []) (build_of builder) token kind.Raw) }
{
    let Builder {
        name,
        mut values,
        layer,
        outer,
    } = builder;
    values.push(token)?;
    Ok(Builder {
        name,
        values,
        layer,
        outer,
    })
}

fn add_not(builder: Builder) -> Builder
    requires { builder.layer.nots + 1 < 2 ^ 64 }
    ensures { (t : Token) → build_of result ≡ build_step_of trees (call_tree []) (build_of builder) t kind.Not }
{
    let Builder {
        name,
        values,
        layer,
        outer,
    } = builder;
    let Layer { ors, ands, nots } = layer;
    Builder {
        name,
        values,
        layer: Layer {
            ors,
            ands,
            nots: nots + 1,
        },
        outer,
    }
}

fn add_or(alloc: Global, builder: Builder) -> Result<Builder, Memory>
    ensures { IfOk result (λ b. (t : Token) → build_of b ≡ build_step_of trees (call_tree []) (build_of builder) t kind.Or) }
{
    let Builder {
        name,
        values,
        layer,
        outer,
    } = builder;
    let ors = whole_group(alloc, layer)?;
    Ok(Builder {
        name,
        values,
        layer: Layer {
            ors,
            ands: None,
            nots: 0,
        },
        outer,
    })
}

fn open(alloc: Global, builder: Builder) -> Result<Builder, Memory>
    ensures { IfOk result (λ b. build_of b ≡ build_open builder.name (build_of builder)) }
{
    let Builder {
        name,
        values,
        layer,
        mut outer,
    } = builder;
    match name {
        Some(token) => Ok(Builder {
            name: Some(token),
            values,
            layer,
            outer,
        }),
        None => {
            outer.push(layer)?;
            Ok(Builder {
                name: None,
                values,
                layer: empty_layer(),
                outer,
            })
        }
    }
}

fn close(alloc: Global, text: &[u8], builder: Builder) -> Result<Builder, CallFault>
    requires { TokensStand text.now builder.name builder.values.items }
    ensures next { IfOk result (λ b. build_of b ≡ build_close trees (call_tree text.now) builder.name (build_of builder)) }
    ensures good { OnOk result (EndsRight text.now builder.name builder.values.items kind.Close) }
    ensures fault { IfErr result (EndsWrong text.now builder.name builder.values.items kind.Close) }
{
    let Builder {
        name,
        values,
        layer,
        outer,
    } = builder;
    match name {
        Some(token) => {
            let leaf = call_leaf(alloc, text, token, values.as_slice())?;
            let layer = put(alloc, layer, Rule::Leaf(leaf))?;
            Ok(Builder {
                name: None,
                values: Vec::new(alloc),
                layer,
                outer,
            })
        }
        None => Ok(close_group(alloc, values, layer, outer)?),
    }
}

fn close_group(
    alloc: Global,
    values: Vec<Token>,
    layer: Layer,
    outer: Vec<Layer>,
) -> Result<Builder, Memory>
    ensures { IfOk result (λ b. build_of b ≡ build_left trees values.items (whole_of_group trees (layer_of layer).ors (layer_of layer).ands) (map layer_of (reverse outer.items))) }
{
    match whole_group(alloc, layer)? {
        Some(rule) => leave_group(alloc, values, rule, outer),
        None => Ok(Builder {
            name: None,
            values,
            layer: empty_layer(),
            outer,
        }),
    }
}

fn leave_group(
    alloc: Global,
    values: Vec<Token>,
    rule: Rule,
    outer: Vec<Layer>,
) -> Result<Builder, Memory>
    ensures { IfOk result (λ b. build_of b ≡ build_left trees values.items (Some (tree_of rule)) (map layer_of (reverse outer.items))) }
{
    let mut outer = outer;
    let around = match outer.pop() {
        Some(around) => around,
        None => empty_layer(),
    };
    let layer = put(alloc, around, rule)?;
    Ok(Builder {
        name: None,
        values,
        layer,
        outer,
    })
}

fn empty_layer() -> Layer
    ensures { result ≡ record { ors = None; ands = None; nots = 0 } }
{
    Layer {
        ors: None,
        ands: None,
        nots: 0,
    }
}

// One operand more in a group.
fn put(alloc: Global, layer: Layer, rule: Rule) -> Result<Layer, Memory>
    ensures { IfOk result (λ l. layer_of l ≡ put_of trees (layer_of layer) (tree_of rule)) }
{
    let Layer { ors, ands, nots } = layer;
    let operand = not_times(alloc, nots, rule)?;
    let ands = and_with(alloc, ands, operand)?;
    Ok(Layer {
        ors,
        ands: Some(ands),
        nots: 0,
    })
}

// The rule with so many `!` before it.
fn not_times(alloc: Global, nots: usize, rule: Rule) -> Result<Rule, Memory>
    ensures { IfOk result (λ r. tree_of r ≡ times_of trees nots (tree_of rule)) }
{
    let mut rule = rule;
    for _ in 0..nots {
        rule = Rule::Not(Boxed::new(alloc, rule)?);
    }
    Ok(rule)
}

fn and_with(alloc: Global, left: Option<Rule>, right: Rule) -> Result<Rule, Memory>
    ensures { IfOk result (λ r. tree_of r ≡ and_of_option trees (option_map tree_of left) (tree_of right)) }
{
    match left {
        Some(left) => Ok(Rule::And(Boxed::new(alloc, left)?, Boxed::new(alloc, right)?)),
        None => Ok(right),
    }
}

// All that stands in a group.
fn whole_group(alloc: Global, layer: Layer) -> Result<Option<Rule>, Memory>
    ensures { IfOk result (λ r. option_map tree_of r ≡ whole_of_group trees (layer_of layer).ors (layer_of layer).ands) }
{
    let Layer { ors, ands, nots: _ } = layer;
    match ors {
        None => Ok(ands),
        Some(left) => match ands {
            None => Ok(Some(left)),
            Some(right) => Ok(Some(Rule::Or(Boxed::new(alloc, left)?, Boxed::new(alloc, right)?))),
        },
    }
}

ghost use Rattle.std.specs.Prelude.{◌≡◌, IfOk, List, ℕ, Some, None};
ghost use Rattle.rg_grammar.specs.Grammar.{not_of, and_of, or_of, compared};
ghost use Rattle.rg_grammar.specs.Machine.{goes, left as left_parts, close_step, deeper, open_here, one_not_more, one_level_more, at_operand, and_with, or_with, nots, with_operand, operand_step, after_field_step, after_op_step, after_operand_step};
ghost use Rattle.rg_parse.specs.Views.{tree, maybe_tree, name, token as token_view};
ghost use Rattle.rg_parse.specs.Levels.{levels as levels_view};
ghost use Rattle.rg_parse.specs.States.{head as head_view, before as before_view, after as after_view};
ghost use Rattle.rg_parse.specs.Parts.{IsName, IsCondition, IsMaybeCondition};
ghost use Rattle.rg_parse.specs.Steps.{Gives, Ends, IsToken, IsBefore, IsAfter, IsFiltered, IsState};

use crate::join::{and_with_left, negated, or_with_left};
use crate::level::Level;
use crate::refusal::Refusal;
use crate::state::{After, Before, Filtered, Grouped, State};
use crate::syntax::{Expr, Span};
use crate::token::Token;
use rg_bytes::Memory;
use rg_keywords::{Keyword, Op, Symbol};
use std::alloc::Global;

/// How deep NOT and parentheses may enclose each other.
const MAX_DEPTH: u32 = 32;

/// An operand has come.
fn take_operand(alloc: Global, before: Before, operand: Expr) -> Result<After, Memory>
    ensures state { (text : List ℕ) → IfOk result (λ after. after_view text after ≡ with_operand (before_view text before) (tree text operand)) }
    ensures made { (text : List ℕ) → IsBefore text before → IsCondition text operand → IfOk result (λ after. IsAfter text after) }
{
    let Before {
        head,
        outer,
        here,
        depth,
    } = before;
    let Level { either, both, nots } = here;
    let operand = negated(alloc, nots, operand)?;
    let last = and_with_left(alloc, both, operand)?;
    Ok(After {
        head,
        outer,
        either,
        last,
        depth: depth - nots,
    })
}

/// NOT, a parenthesis or a field.
pub fn step_operand(before: Before, token: Token) -> Result<State, Refusal>
    ensures gives { (text : List ℕ) → Gives text result (operand_step 32 (before_view text before) (token_view text token)) }
    ensures made { (text : List ℕ) → IsToken text token → IsBefore text before → IfOk result (λ state. IsState text state) }
{
    match token {
        Token::Reserved(Keyword::Not) => negate(before),
        Token::Sign(Symbol::Open) => open_group(before),
        Token::Word(field) => Ok(State::AfterField(before, field)),
        _ => Err(Refusal::Syntax),
    }
}

/// A NOT before the operand.
fn negate(mut before: Before) -> Result<State, Refusal>
    ensures gives { (text : List ℕ) → Gives text result (deeper 32 (open_here (before_view text before)) (at_operand (one_not_more (before_view text before)))) }
    ensures made { (text : List ℕ) → IsBefore text before → IfOk result (λ state. IsState text state) }
{
    if before.depth >= MAX_DEPTH {
        return Err(Refusal::TooDeep);
    }
    before.here.nots += 1;
    before.depth += 1;
    Ok(State::Operand(before))
}

/// A parenthesis before the operand.
fn open_group(before: Before) -> Result<State, Refusal>
    ensures gives { (text : List ℕ) → Gives text result (deeper 32 (open_here (before_view text before)) (at_operand (one_level_more (before_view text before)))) }
    ensures made { (text : List ℕ) → IsBefore text before → IfOk result (λ state. IsState text state) }
{
    if before.depth >= MAX_DEPTH {
        return Err(Refusal::TooDeep);
    }
    let Before {
        head,
        mut outer,
        here,
        depth,
    } = before;
    match outer.push(here) {
        Ok(()) => {}
        Err(_) => return Err(Refusal::Memory),
    }
    Ok(State::Operand(Before {
        head,
        outer,
        here: Level {
            either: None,
            both: None,
            nots: 0,
        },
        depth: depth + 1,
    }))
}

/// How the field is compared.
pub fn step_after_field(before: Before, field: Span, token: Token) -> Result<State, Refusal>
    ensures gives { (text : List ℕ) → Gives text result (after_field_step (before_view text before) (name text field) (token_view text token)) }
    ensures made { (text : List ℕ) → IsBefore text before → IsName text field → IfOk result (λ state. IsState text state) }
{
    match token {
        Token::Sign(Symbol::Compare(op)) => Ok(State::AfterOp(before, field, op)),
        _ => Err(Refusal::Syntax),
    }
}

/// What it is compared with.
pub fn step_after_op(
    alloc: Global,
    before: Before,
    field: Span,
    op: Op,
    token: Token,
) -> Result<State, Refusal>
    ensures gives { (text : List ℕ) → Gives text result (after_op_step (before_view text before) (name text field) op (token_view text token)) }
    ensures made { (text : List ℕ) → IsToken text token → IsBefore text before → IsName text field → IfOk result (λ state. IsState text state) }
{
    match token {
        Token::Literal(value) => match take_operand(
            alloc,
            before,
            Expr::Compare(field, op, value),
        ) {
            Ok(after) => Ok(State::AfterOperand(after)),
            Err(_) => Err(Refusal::Memory),
        },
        _ => Err(Refusal::Syntax),
    }
}

/// AND, OR, a closing parenthesis, GROUP or OVER.
pub fn step_after_operand(alloc: Global, after: After, token: Token) -> Result<State, Refusal>
    ensures gives { (text : List ℕ) → Gives text result (after_operand_step (head_view text after.head) (levels_view text after.outer.items) (maybe_tree text after.either) (tree text after.last) (token_view text token)) }
    ensures made { (text : List ℕ) → IsAfter text after → IfOk result (λ state. IsState text state) }
{
    match token {
        Token::Reserved(Keyword::And) => Ok(State::Operand(and_next(after))),
        Token::Reserved(Keyword::Or) => or_next(alloc, after),
        Token::Sign(Symbol::Close) => close_group(alloc, after),
        Token::Reserved(Keyword::Group) => match end_condition(alloc, after) {
            Ok(filtered) => Ok(State::By(filtered)),
            Err(refusal) => Err(refusal),
        },
        Token::Reserved(Keyword::Over) => match end_condition(alloc, after) {
            Ok(filtered) => Ok(State::Window(Grouped {
                filtered,
                group: Vec::new(alloc),
            })),
            Err(refusal) => Err(refusal),
        },
        _ => Err(Refusal::Syntax),
    }
}

/// An operand is to come behind an AND.
fn and_next(after: After) -> Before
    ensures gives { (text : List ℕ) → before_view text result ≡ left_parts (head_view text after.head) (levels_view text after.outer.items) (maybe_tree text after.either) (Some (tree text after.last)) 0 }
    ensures made { (text : List ℕ) → IsAfter text after → IsBefore text result }
{
    let After {
        head,
        outer,
        either,
        last,
        depth,
    } = after;
    Before {
        head,
        outer,
        here: Level {
            either,
            both: Some(last),
            nots: 0,
        },
        depth,
    }
}

/// An operand is to come behind an OR.
fn or_next(alloc: Global, after: After) -> Result<State, Refusal>
    ensures gives { (text : List ℕ) → Gives text result (goes (at_operand (left_parts (head_view text after.head) (levels_view text after.outer.items) (Some (or_with (maybe_tree text after.either) (tree text after.last))) None 0))) }
    ensures made { (text : List ℕ) → IsAfter text after → IfOk result (λ state. IsState text state) }
{
    let After {
        head,
        outer,
        either,
        last,
        depth,
    } = after;
    match or_with_left(alloc, either, last) {
        Ok(expr) => Ok(State::Operand(Before {
            head,
            outer,
            here: Level {
                either: Some(expr),
                both: None,
                nots: 0,
            },
            depth,
        })),
        Err(_) => Err(Refusal::Memory),
    }
}

/// A parenthesis closes the condition.
#[tactic(auto, using(crate::proofs::Levels::levels_push, crate::proofs::Levels::count_push))]
fn close_group(alloc: Global, after: After) -> Result<State, Refusal>
    ensures gives { (text : List ℕ) → Gives text result (close_step (head_view text after.head) (levels_view text after.outer.items) (or_with (maybe_tree text after.either) (tree text after.last))) }
    ensures made { (text : List ℕ) → IsAfter text after → IfOk result (λ state. IsState text state) }
{
    let After {
        head,
        mut outer,
        either,
        last,
        depth,
    } = after;
    match outer.pop() {
        None => Err(Refusal::Syntax),
        Some(here) => {
            let operand = match or_with_left(alloc, either, last) {
                Ok(operand) => operand,
                Err(_) => return Err(Refusal::Memory),
            };
            let before = Before {
                head,
                outer,
                here,
                depth: depth - 1,
            };
            match take_operand(alloc, before, operand) {
                Ok(after) => Ok(State::AfterOperand(after)),
                Err(_) => Err(Refusal::Memory),
            }
        }
    }
}

/// The condition ends, where no parenthesis is open.
#[tactic(auto, using(crate::proofs::Levels::levels_push))]
fn end_condition(alloc: Global, after: After) -> Result<Filtered, Refusal>
    ensures ends { (text : List ℕ) → Ends text result (head_view text after.head) (levels_view text after.outer.items) (or_with (maybe_tree text after.either) (tree text after.last)) }
    ensures made { (text : List ℕ) → IsAfter text after → IfOk result (λ filtered. IsFiltered text filtered) }
{
    let After {
        head,
        mut outer,
        either,
        last,
        depth: _,
    } = after;
    match outer.pop() {
        Some(_) => Err(Refusal::Syntax),
        None => match or_with_left(alloc, either, last) {
            Ok(expr) => Ok(Filtered {
                head,
                filter: Some(expr),
            }),
            Err(_) => Err(Refusal::Memory),
        },
    }
}

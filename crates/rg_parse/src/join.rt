ghost use Rattle.std.specs.Prelude.{◌≡◌, IfOk, List, ℕ};
ghost use Rattle.rg_grammar.specs.Machine.{and_with, or_with, nots};
ghost use Rattle.rg_parse.specs.Views.{tree, maybe_tree};
ghost use Rattle.rg_parse.specs.Parts.{IsCondition, IsMaybeCondition};

use crate::syntax::Expr;
use rg_bytes::Memory;
use std::alloc::Global;

/// The condition with what stands before its AND.
pub fn and_with_left(alloc: Global, left: Option<Expr>, right: Expr) -> Result<Expr, Memory>
    ensures means { (text : List ℕ) → IfOk result (λ expr. tree text expr ≡ and_with (maybe_tree text left) (tree text right)) }
    ensures made { (text : List ℕ) → IsMaybeCondition text left → IsCondition text right → IfOk result (λ expr. IsCondition text expr) }
{
    match left {
        None => Ok(right),
        Some(left) => Ok(Expr::And(Box::new(alloc, left)?, Box::new(alloc, right)?)),
    }
}

/// The condition with what stands before its OR.
pub fn or_with_left(alloc: Global, left: Option<Expr>, right: Expr) -> Result<Expr, Memory>
    ensures means { (text : List ℕ) → IfOk result (λ expr. tree text expr ≡ or_with (maybe_tree text left) (tree text right)) }
    ensures made { (text : List ℕ) → IsMaybeCondition text left → IsCondition text right → IfOk result (λ expr. IsCondition text expr) }
{
    match left {
        None => Ok(right),
        Some(left) => Ok(Expr::Or(Box::new(alloc, left)?, Box::new(alloc, right)?)),
    }
}

/// The condition under so many NOT.
#[tactic(auto, using(crate::proofs::Nots::nots_next, crate::proofs::Nots::nots_none))]
pub fn negated(alloc: Global, times: u32, expr: Expr) -> Result<Expr, Memory>
    ensures means { (text : List ℕ) → IfOk result (λ negated. tree text negated ≡ nots times (tree text expr)) }
    ensures made { (text : List ℕ) → IsCondition text expr → IfOk result (λ negated. IsCondition text negated) }
{
    let mut expr = expr;
    for _ in 0..times {
        expr = Expr::Not(Box::new(alloc, expr)?);
    }
    Ok(expr)
}

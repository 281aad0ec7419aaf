ghost use Rattle.std.specs.Prelude.{IfOk, List, ℕ};
ghost use Rattle.rg_grammar.specs.Machine.{at_pct_step, at_percent_step, at_comma_step, at_pct_field_step};
ghost use Rattle.rg_parse.specs.Views.{calls as calls_view, text_at, token as token_view};
ghost use Rattle.rg_parse.specs.Parts.{IsCount};
ghost use Rattle.rg_parse.specs.Steps.{Gives, IsToken, AreCalls, IsState};

use crate::refusal::Refusal;
use crate::state::State;
use crate::syntax::{Call, Literal, Span};
use crate::token::Token;
use crate::window::is_signed;
use rg_keywords::Symbol;

/// A parenthesis opens behind PCT.
pub fn step_pct(calls: Vec<Call>, token: Token) -> Result<State, Refusal>
    ensures gives { (text : List ℕ) → Gives text result (at_pct_step (calls_view text calls.items) (token_view text token)) }
    ensures made { (text : List ℕ) → AreCalls text calls.items → IfOk result (λ state. IsState text state) }
{
    match token {
        Token::Sign(Symbol::Open) => Ok(State::Percent(calls)),
        _ => Err(Refusal::Syntax),
    }
}

/// The percent, without a sign.
pub fn step_percent(text: &[u8], calls: Vec<Call>, token: Token) -> Result<State, Refusal>
    requires { IsToken text.now token }
    ensures gives { Gives text.now result (at_percent_step (calls_view text.now calls.items) (token_view text.now token)) }
    ensures made { AreCalls text.now calls.items → IfOk result (λ state. IsState text.now state) }
{
    match token {
        Token::Literal(Literal::Number(number)) => {
            if is_signed(&text[number.start..number.end]) {
                return Err(Refusal::Syntax);
            }
            Ok(State::Comma(calls, number))
        }
        _ => Err(Refusal::Syntax),
    }
}

/// A comma behind the percent.
pub fn step_comma(calls: Vec<Call>, percent: Span, token: Token) -> Result<State, Refusal>
    ensures gives { (text : List ℕ) → Gives text result (at_comma_step (calls_view text calls.items) percent.start (text_at text percent) (token_view text token)) }
    ensures made { (text : List ℕ) → AreCalls text calls.items → IsCount text percent → IfOk result (λ state. IsState text state) }
{
    match token {
        Token::Sign(Symbol::Comma) => Ok(State::PctField(calls, percent)),
        _ => Err(Refusal::Syntax),
    }
}

/// The field of a percent.
pub fn step_pct_field(calls: Vec<Call>, percent: Span, token: Token) -> Result<State, Refusal>
    ensures gives { (text : List ℕ) → Gives text result (at_pct_field_step (calls_view text calls.items) percent.start (text_at text percent) (token_view text token)) }
    ensures made { (text : List ℕ) → IsToken text token → AreCalls text calls.items → IsCount text percent → IfOk result (λ state. IsState text state) }
{
    match token {
        Token::Word(field) => Ok(State::Close(calls, Call::Pct(percent, field))),
        _ => Err(Refusal::Syntax),
    }
}

ghost use Rattle.std.specs.Prelude.{◌≡◌, IfOk, List, ℕ};
ghost use Rattle.rg_grammar.specs.Grammar.{is_count as count_test};
ghost use Rattle.rg_grammar.specs.Machine.{start_step, at_func_step, at_open_step, at_field_step, at_close_step, after_agg_step, at_stream_step, after_stream_step};
ghost use Rattle.rg_parse.specs.Views.{call as call_view, calls as calls_view, token as token_view};
ghost use Rattle.rg_parse.specs.States.{head as head_view};
ghost use Rattle.rg_parse.specs.Parts.{IsCall};
ghost use Rattle.rg_parse.specs.Steps.{Gives, IsToken, AreCalls, IsHead, IsState};

use crate::level::Level;
use crate::refusal::Refusal;
use crate::state::{Before, Filtered, Grouped, Head, State};
use crate::syntax::Call;
use crate::token::Token;
use rg_keywords::{Callee, Func, Keyword, Symbol};
use std::alloc::Global;

/// The text begins with SELECT.
pub fn step_start(alloc: Global, token: Token) -> Result<State, Refusal>
    ensures gives { (text : List ℕ) → Gives text result (start_step (token_view text token)) }
    ensures made { (text : List ℕ) → IfOk result (λ state. IsState text state) }
{
    match token {
        Token::Reserved(Keyword::Select) => Ok(State::Func(Vec::new(alloc))),
        _ => Err(Refusal::Syntax),
    }
}

/// A call begins with its function, or with PCT.
pub fn step_func(text: &[u8], calls: Vec<Call>, token: Token) -> Result<State, Refusal>
    requires { IsToken text.now token }
    ensures gives { Gives text.now result (at_func_step (calls_view text.now calls.items) (token_view text.now token)) }
    ensures made { AreCalls text.now calls.items → IfOk result (λ state. IsState text.now state) }
{
    match token {
        Token::Word(word) => match Callee::named(&text[word.start..word.end]) {
            Some(Callee::Func(func)) => Ok(State::Open(calls, func)),
            Some(Callee::Pct) => Ok(State::Pct(calls)),
            None => Err(Refusal::Syntax),
        },
        _ => Err(Refusal::Syntax),
    }
}

/// A parenthesis opens behind it.
pub fn step_open(calls: Vec<Call>, func: Func, token: Token) -> Result<State, Refusal>
    ensures gives { (text : List ℕ) → Gives text result (at_open_step (calls_view text calls.items) func (token_view text token)) }
    ensures made { (text : List ℕ) → AreCalls text calls.items → IfOk result (λ state. IsState text state) }
{
    match token {
        Token::Sign(Symbol::Open) => Ok(State::Field(calls, func)),
        _ => Err(Refusal::Syntax),
    }
}

/// COUNT takes `*`, each other function but PCT a field.
pub fn step_field(calls: Vec<Call>, func: Func, token: Token) -> Result<State, Refusal>
    ensures gives { (text : List ℕ) → Gives text result (at_field_step (calls_view text calls.items) func (token_view text token)) }
    ensures made { (text : List ℕ) → IsToken text token → AreCalls text calls.items → IfOk result (λ state. IsState text state) }
{
    let counts = func == Func::Count;
    match token {
        Token::Sign(Symbol::Star) if counts => Ok(State::Close(calls, Call::CountAll)),
        Token::Word(field) if !counts => Ok(State::Close(calls, Call::Field(func, field))),
        _ => Err(Refusal::Syntax),
    }
}

/// The parenthesis closes.
pub fn step_close(mut calls: Vec<Call>, call: Call, token: Token) -> Result<State, Refusal>
    ensures gives { (text : List ℕ) → Gives text result (at_close_step (calls_view text calls.items) (call_view text call) (token_view text token)) }
    ensures made { (text : List ℕ) → AreCalls text calls.items → IsCall text call → IfOk result (λ state. IsState text state) }
{
    match token {
        Token::Sign(Symbol::Close) => match calls.push(call) {
            Ok(()) => Ok(State::AfterCall(calls)),
            Err(_) => Err(Refusal::Memory),
        },
        _ => Err(Refusal::Syntax),
    }
}

/// One call more, or FROM.
pub fn step_after_call(calls: Vec<Call>, token: Token) -> Result<State, Refusal>
    ensures gives { (text : List ℕ) → Gives text result (after_agg_step (calls_view text calls.items) (token_view text token)) }
    ensures made { (text : List ℕ) → AreCalls text calls.items → IfOk result (λ state. IsState text state) }
{
    match token {
        Token::Sign(Symbol::Comma) => Ok(State::Func(calls)),
        Token::Reserved(Keyword::From) => Ok(State::Stream(calls)),
        _ => Err(Refusal::Syntax),
    }
}

/// The name of the stream.
pub fn step_stream(calls: Vec<Call>, token: Token) -> Result<State, Refusal>
    ensures gives { (text : List ℕ) → Gives text result (at_stream_step (calls_view text calls.items) (token_view text token)) }
    ensures made { (text : List ℕ) → IsToken text token → AreCalls text calls.items → IfOk result (λ state. IsState text state) }
{
    match token {
        Token::Word(stream) => Ok(State::AfterStream(Head { calls, stream })),
        _ => Err(Refusal::Syntax),
    }
}

/// WHERE, GROUP or OVER.
pub fn step_after_stream(alloc: Global, head: Head, token: Token) -> Result<State, Refusal>
    ensures gives { (text : List ℕ) → Gives text result (after_stream_step (head_view text head) (token_view text token)) }
    ensures made { (text : List ℕ) → IsHead text head → IfOk result (λ state. IsState text state) }
{
    match token {
        Token::Reserved(Keyword::Where) => Ok(State::Operand(Before {
            head,
            outer: Vec::new(alloc),
            here: Level {
                either: None,
                both: None,
                nots: 0,
            },
            depth: 0,
        })),
        Token::Reserved(Keyword::Group) => Ok(State::By(Filtered { head, filter: None })),
        Token::Reserved(Keyword::Over) => Ok(State::Window(Grouped {
            filtered: Filtered { head, filter: None },
            group: Vec::new(alloc),
        })),
        _ => Err(Refusal::Syntax),
    }
}

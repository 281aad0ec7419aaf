ghost use Rattle.std.specs.Prelude.{◌≡◌, IfOk, List, ℕ};
ghost use Rattle.rg_grammar.specs.Grammar.{is_signed as sign_test};
ghost use Rattle.rg_grammar.specs.Machine.{at_by_step, at_group_step, after_group_step, at_window_step, at_length_step, at_unit_step, after_window_step, at_delay_by_step, at_delay_step, at_delay_unit_step, with_window};
ghost use Rattle.rg_parse.specs.Views.{names, text_at, maybe_duration, raw as raw_view, token as token_view};
ghost use Rattle.rg_parse.specs.Parts.{IsCount, IsMaybeDuration, IsMadeOf};
ghost use Rattle.rg_parse.specs.States.{filtered as filtered_view, grouped as grouped_view};
ghost use Rattle.rg_parse.specs.Steps.{Gives, IsToken, IsFiltered, IsGrouped, IsWindowed, IsState};

use crate::refusal::Refusal;
use crate::state::{Filtered, Grouped, Head, State, Windowed};
use crate::syntax::{Duration, Literal, Raw, Span};
use crate::token::Token;
use rg_keywords::{Keyword, Symbol, TimeUnit};
use std::alloc::Global;

/// BY behind GROUP.
pub fn step_by(alloc: Global, filtered: Filtered, token: Token) -> Result<State, Refusal>
    ensures gives { (text : List ℕ) → Gives text result (at_by_step (filtered_view text filtered) (token_view text token)) }
    ensures made { (text : List ℕ) → IsFiltered text filtered → IfOk result (λ state. IsState text state) }
{
    match token {
        Token::Reserved(Keyword::By) => Ok(State::Group(Grouped {
            filtered,
            group: Vec::new(alloc),
        })),
        _ => Err(Refusal::Syntax),
    }
}

/// A column of the key.
pub fn step_group(grouped: Grouped, token: Token) -> Result<State, Refusal>
    ensures gives { (text : List ℕ) → Gives text result (at_group_step (filtered_view text grouped.filtered) (names text grouped.group.items) (token_view text token)) }
    ensures made { (text : List ℕ) → IsToken text token → IsGrouped text grouped → IfOk result (λ state. IsState text state) }
{
    let Grouped {
        filtered,
        mut group,
    } = grouped;
    match token {
        Token::Word(field) => match group.push(field) {
            Ok(()) => Ok(State::AfterGroup(Grouped { filtered, group })),
            Err(_) => Err(Refusal::Memory),
        },
        _ => Err(Refusal::Syntax),
    }
}

/// One column more, or OVER.
pub fn step_after_group(grouped: Grouped, token: Token) -> Result<State, Refusal>
    ensures gives { (text : List ℕ) → Gives text result (after_group_step (filtered_view text grouped.filtered) (names text grouped.group.items) (token_view text token)) }
    ensures made { (text : List ℕ) → IsGrouped text grouped → IfOk result (λ state. IsState text state) }
{
    match token {
        Token::Sign(Symbol::Comma) => Ok(State::Group(grouped)),
        Token::Reserved(Keyword::Over) => Ok(State::Window(grouped)),
        _ => Err(Refusal::Syntax),
    }
}

/// SLIDING or INFINITE.
pub fn step_window(grouped: Grouped, token: Token) -> Result<State, Refusal>
    ensures gives { (text : List ℕ) → Gives text result (at_window_step (grouped_view text grouped) (token_view text token)) }
    ensures made { (text : List ℕ) → IsGrouped text grouped → IfOk result (λ state. IsState text state) }
{
    match token {
        Token::Reserved(Keyword::Sliding) => Ok(State::Length(grouped)),
        Token::Reserved(Keyword::Infinite) => Ok(State::AfterWindow(Windowed {
            grouped,
            length: None,
        })),
        _ => Err(Refusal::Syntax),
    }
}

/// Whether a number begins with a minus.
pub(crate) fn is_signed(number: &[u8]) -> bool
    ensures { result ≡ sign_test number.now }
{
    match number {
        [] => false,
        [first, ..] => *first == b'-',
    }
}

/// How many units long the window is.
pub fn step_length(text: &[u8], grouped: Grouped, token: Token) -> Result<State, Refusal>
    requires { IsToken text.now token }
    ensures gives { Gives text.now result (at_length_step (grouped_view text.now grouped) (token_view text.now token)) }
    ensures made { IsGrouped text.now grouped → IfOk result (λ state. IsState text.now state) }
{
    match token {
        Token::Literal(Literal::Number(number)) => {
            if is_signed(&text[number.start..number.end]) {
                return Err(Refusal::Syntax);
            }
            Ok(State::LengthUnit(grouped, number))
        }
        _ => Err(Refusal::Syntax),
    }
}

/// The unit of its length.
pub fn step_length_unit(
    text: &[u8],
    grouped: Grouped,
    number: Span,
    token: Token,
) -> Result<State, Refusal>
    requires { IsToken text.now token }
    ensures gives { Gives text.now result (at_unit_step (grouped_view text.now grouped) number.start (text_at text.now number) (token_view text.now token)) }
    ensures made { IsGrouped text.now grouped → IsCount text.now number → IfOk result (λ state. IsState text.now state) }
{
    match token {
        Token::Word(word) => match TimeUnit::named(&text[word.start..word.end]) {
            Some(unit) => Ok(State::AfterWindow(Windowed {
                grouped,
                length: Some(Duration { number, unit }),
            })),
            None => Err(Refusal::Syntax),
        },
        _ => Err(Refusal::Syntax),
    }
}

/// DELAYED.
pub fn step_after_window(windowed: Windowed, token: Token) -> Result<State, Refusal>
    ensures gives { (text : List ℕ) → Gives text result (after_window_step (grouped_view text windowed.grouped) (maybe_duration text windowed.length) (token_view text token)) }
    ensures made { (text : List ℕ) → IsWindowed text windowed → IfOk result (λ state. IsState text state) }
{
    match token {
        Token::Reserved(Keyword::Delayed) => Ok(State::DelayBy(windowed)),
        _ => Err(Refusal::Syntax),
    }
}

/// BY behind DELAYED.
pub fn step_delay_by(windowed: Windowed, token: Token) -> Result<State, Refusal>
    ensures gives { (text : List ℕ) → Gives text result (at_delay_by_step (grouped_view text windowed.grouped) (maybe_duration text windowed.length) (token_view text token)) }
    ensures made { (text : List ℕ) → IsWindowed text windowed → IfOk result (λ state. IsState text state) }
{
    match token {
        Token::Reserved(Keyword::By) => Ok(State::Delay(windowed)),
        _ => Err(Refusal::Syntax),
    }
}

/// How many units the window is delayed by.
pub fn step_delay(text: &[u8], windowed: Windowed, token: Token) -> Result<State, Refusal>
    requires { IsToken text.now token }
    ensures gives { Gives text.now result (at_delay_step (grouped_view text.now windowed.grouped) (maybe_duration text.now windowed.length) (token_view text.now token)) }
    ensures made { IsWindowed text.now windowed → IfOk result (λ state. IsState text.now state) }
{
    match token {
        Token::Literal(Literal::Number(number)) => {
            if is_signed(&text[number.start..number.end]) {
                return Err(Refusal::Syntax);
            }
            Ok(State::DelayUnit(windowed, number))
        }
        _ => Err(Refusal::Syntax),
    }
}

/// The unit of its delay.
pub fn step_delay_unit(
    text: &[u8],
    windowed: Windowed,
    number: Span,
    token: Token,
) -> Result<State, Refusal>
    requires { IsToken text.now token }
    ensures gives { Gives text.now result (at_delay_unit_step (grouped_view text.now windowed.grouped) (maybe_duration text.now windowed.length) number.start (text_at text.now number) (token_view text.now token)) }
    ensures made { IsWindowed text.now windowed → IsCount text.now number → IfOk result (λ state. IsState text.now state) }
{
    match token {
        Token::Word(word) => match TimeUnit::named(&text[word.start..word.end]) {
            Some(unit) => Ok(State::End(finished(windowed, Some(Duration { number, unit })))),
            None => Err(Refusal::Syntax),
        },
        _ => Err(Refusal::Syntax),
    }
}

/// The whole query.
pub fn finished(windowed: Windowed, delay: Option<Duration>) -> Raw
    ensures gives { (text : List ℕ) → raw_view text result ≡ with_window (grouped_view text windowed.grouped) (maybe_duration text windowed.length) (maybe_duration text delay) }
    ensures made { (text : List ℕ) → IsWindowed text windowed → IsMaybeDuration text delay → IsMadeOf text result }
{
    let Windowed { grouped, length } = windowed;
    let Grouped { filtered, group } = grouped;
    let Filtered { head, filter } = filtered;
    let Head { calls, stream } = head;
    Raw {
        calls,
        stream,
        filter,
        group,
        length,
        delay,
    }
}

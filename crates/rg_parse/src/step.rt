ghost use Rattle.std.specs.Prelude.{IfOk, IfSome, List, ℕ};
ghost use Rattle.rg_grammar.specs.Machine.{step as machine_step, finish as machine_finish};
ghost use Rattle.rg_parse.specs.Views.{token as token_view};
ghost use Rattle.rg_parse.specs.States.{state as state_view};
ghost use Rattle.rg_parse.specs.Parts.{IsMadeOf};
ghost use Rattle.rg_parse.specs.Steps.{Gives, Finishes, IsToken, IsState};

use crate::condition::{step_after_field, step_after_op, step_after_operand, step_operand};
use crate::percent::{step_comma, step_pct, step_pct_field, step_percent};
use crate::refusal::Refusal;
use crate::select::{
    step_after_call, step_after_stream, step_close, step_field, step_func, step_open, step_start,
    step_stream,
};
use crate::state::State;
use crate::syntax::Raw;
use crate::token::Token;
use crate::window::{
    finished, step_after_group, step_after_window, step_by, step_delay, step_delay_by,
    step_delay_unit, step_group, step_length, step_length_unit, step_window,
};
use std::alloc::Global;

/// What a token makes of a state.
pub fn step(alloc: Global, text: &[u8], state: State, token: Token) -> Result<State, Refusal>
    requires token { IsToken text.now token }
    requires state { IsState text.now state }
    ensures gives { Gives text.now result (machine_step 32 (state_view text.now state) (token_view text.now token)) }
    ensures made { IfOk result (λ state. IsState text.now state) }
{
    match state {
        State::Start => step_start(alloc, token),
        State::Func(calls) => step_func(text, calls, token),
        State::Open(calls, func) => step_open(calls, func, token),
        State::Field(calls, func) => step_field(calls, func, token),
        State::Pct(calls) => step_pct(calls, token),
        State::Percent(calls) => step_percent(text, calls, token),
        State::Comma(calls, percent) => step_comma(calls, percent, token),
        State::PctField(calls, percent) => step_pct_field(calls, percent, token),
        State::Close(calls, call) => step_close(calls, call, token),
        State::AfterCall(calls) => step_after_call(calls, token),
        State::Stream(calls) => step_stream(calls, token),
        State::AfterStream(head) => step_after_stream(alloc, head, token),
        State::Operand(before) => step_operand(before, token),
        State::AfterField(before, field) => step_after_field(before, field, token),
        State::AfterOp(before, field, op) => step_after_op(alloc, before, field, op, token),
        State::AfterOperand(after) => step_after_operand(alloc, after, token),
        State::By(filtered) => step_by(alloc, filtered, token),
        State::Group(grouped) => step_group(grouped, token),
        State::AfterGroup(grouped) => step_after_group(grouped, token),
        State::Window(grouped) => step_window(grouped, token),
        State::Length(grouped) => step_length(text, grouped, token),
        State::LengthUnit(grouped, number) => step_length_unit(text, grouped, number, token),
        State::AfterWindow(windowed) => step_after_window(windowed, token),
        State::DelayBy(windowed) => step_delay_by(windowed, token),
        State::Delay(windowed) => step_delay(text, windowed, token),
        State::DelayUnit(windowed, number) => step_delay_unit(text, windowed, number, token),
        State::End(raw) => {
            drop(raw);
            Err(Refusal::Syntax)
        }
    }
}

/// The query, where one may end here.
pub fn finish(state: State) -> Option<Raw>
    ensures gives { (text : List ℕ) → Finishes text result (machine_finish (state_view text state)) }
    ensures made { (text : List ℕ) → IsState text state → IfSome result (λ raw. IsMadeOf text raw) }
{
    match state {
        State::AfterWindow(windowed) => Some(finished(windowed, None)),
        State::End(raw) => Some(raw),
        other => {
            drop(other);
            None
        }
    }
}

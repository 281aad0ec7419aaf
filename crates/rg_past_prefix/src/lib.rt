//! A past that shows the first events of another one.
//!
//! Payments that are stored are answered again in order, each by the events up to it alone: an engine over a past
//! that shows just those sees none behind them, also of the same time. Upward: it is a past of the first events,
//! which is always full, and one event more is shown at a time.
#![tactic(auto)]

mod shown;

pub use shown::Shown;

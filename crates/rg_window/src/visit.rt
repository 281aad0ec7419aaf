ghost use Rattle.std.specs.Prelude.{ℕ, Result};
ghost use Rattle.rg_event.specs.declared.event.Event.{Event};

use rg_event::Event;

/// One who is handed each event that an edge passes.
pub trait Visit {
    /// Why a visit was refused.
    type Fault;

    /// From the visitor before a call, by the edge, the event and the answer, to the visitor after it.
    ghost step: { Self → ℕ → Event → Result Unit Self.Fault → Self → Type 0 };

    /// Visits an event that the edge of that index has come to.
    fn event(&mut self, edge: u32, event: &Event) -> Result<(), Self::Fault>
        ensures { step self.old edge event.now result self.new };
}

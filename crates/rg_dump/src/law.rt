ghost use Rattle.std.specs.Prelude.{◌≡◌, ◌∷◌, [], ℕ, List, None, map};
ghost use Rattle.rg_event.specs.Shapes.{Shape, schema_text};
ghost use Rattle.rg_event.specs.declared.event.Event.{Event};
ghost use Rattle.rg_frame.specs.Frames.{HasPayloads};
ghost use Rattle.rg_log.specs.Log.{HasEvents, IsInForce};
ghost use Rattle.rg_dump.specs.Rows.{row_line};
ghost use Rattle.rg_dump.specs.Dump.{dump_text, damage_of};

/// The dump of a legal log has the text of the schema in force at its end and a row for each of its events, with all its
/// values, and no damaged place; that of a log without frames is empty.
pub fn law_dump()
    // The dump of a legal log is the text of the schema at its end and a row for each event, with all its values.
    ensures rows { (shape : Shape) (events : List Event) (bytes : List ℕ) → IsInForce shape bytes → HasEvents shape events bytes → dump_text bytes ≡ schema_text shape ∷ map row_line events }

    // A legal log has no damaged place.
    ensures undamaged { (shape : Shape) (events : List Event) (bytes : List ℕ) → IsInForce shape bytes → HasEvents shape events bytes → damage_of bytes ≡ None }
    ensures empty { (bytes : List ℕ) → HasPayloads [] bytes → (dump_text bytes ≡ []) × (damage_of bytes ≡ None) }
{}

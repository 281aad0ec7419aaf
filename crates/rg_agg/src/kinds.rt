ghost use Rattle.std.specs.Prelude.{◌↔◌, IsTrue};
ghost use Rattle.rg_agg.specs.Standing.{IsLike};

use rg_event::{Kind, Value};

/// Whether a value is of that kind, if there is one.
pub fn is_like(kind: Option<Kind>, value: &Value) -> bool
    ensures { IsTrue result ↔ IsLike kind value.now }
{
    match kind {
        Some(kind) => value.kind() == kind,
        None => true,
    }
}

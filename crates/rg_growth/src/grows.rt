ghost use Rattle.std.specs.Prelude.{◌≡◌, ◌↔◌, IsTrue};
ghost use Rattle.rg_growth.specs.Growing.{Grows, begins, grows as the_test, is_same as same_test};

use rg_event::{Field, Schema};

/// Whether a schema grows to another one: its stream and its time have the same names, its columns are the first ones
/// of the other, and the other has at least one more.
pub fn grows_to(from: &Schema, to: &Schema) -> bool
    ensures test { result ≡ the_test from.now to.now }

    // A schema grows to another exactly where stream and time are named alike, its columns come first there, and there
    // are more.
    ensures exact { IsTrue result ↔ Grows from.now to.now }
{
    let own = from.fields();
    let all = to.fields();
    from.stream().as_bytes() == to.stream().as_bytes()
        && from.time().as_bytes() == to.time().as_bytes()
        && own.len() < all.len()
        && begin(own, all)
}

/// Whether the columns are the first ones of the others.
fn begin(own: &[Field], all: &[Field]) -> bool
    ensures { result ≡ begins own.now all.now }
{
    for (i, field) in own.iter().enumerate() {
        match all.get(i) {
            Some(other) => {
                if !is_same(field, other) {
                    return false;
                }
            }
            None => return false,
        }
    }
    true
}

/// Whether two columns have the same name and kind.
fn is_same(field: &Field, other: &Field) -> bool
    ensures { result ≡ same_test field.now other.now }
{
    field.name.as_bytes() == other.name.as_bytes() && field.kind == other.kind
}

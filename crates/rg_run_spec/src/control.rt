ghost use Rattle.std.specs.Prelude.{◌≡◌};
ghost use Rattle.rg_run_spec.specs.Verdicts.{control_of};

/// What a line asks for that brings no event.
#[derive(Clone, Copy, Debug, PartialEq, Eq, Hash)]
pub enum Control {
    /// That all events are stored.
    Commit,
    /// That all events are stored, and a checkpoint of them is saved.
    Save,
    /// That the chunks are loaded which the edges come to next.
    Ahead,
}

/// What a cleaned line asks for, where it is one of the control lines.
///
/// A line whose first byte isn't `!` is not looked at any further.
pub fn control_in(line: &[u8]) -> Option<Control>
    // It tells what a cleaned line asks for, where it is a control line.
    ensures { result ≡ control_of line.now }
{
    match line.first() {
        Some(b'!') => control_word(line),
        _ => None,
    }
}

fn control_word(line: &[u8]) -> Option<Control>
    ensures { result ≡ control_of line.now }
{
    if line == b"!commit".as_slice() {
        return Some(Control::Commit);
    }
    if line == b"!save".as_slice() {
        return Some(Control::Save);
    }
    if line == b"!ahead".as_slice() {
        return Some(Control::Ahead);
    }
    None
}

ghost use Rattle.std.specs.Prelude.{◌≡◌, ◌<◌};
ghost use Rattle.rg_run.specs.Due.{is_due};

/// What is done on the disk before a line is answered.
#[derive(Clone, Copy, Debug, PartialEq, Eq, Hash)]
pub enum Due {
    /// Nothing.
    Nothing,
    /// All events are stored.
    Commit,
    /// All events are stored, and then a checkpoint of them is saved.
    Save,
}

/// What is due once a line changed the number of events from `before` to `after`, where the events are
/// stored after each `commit` of them, and saved after each `save` of them.
pub fn due_at(commit: u64, save: u64, before: u64, after: u64) -> Due
    requires some_to_commit { 0 < commit }
    requires some_to_save { 0 < save }
    // It tells what is due behind an event.
    ensures { result ≡ is_due commit save before after }
{
    if after <= before {
        return Due::Nothing;
    }
    if after % save == 0 {
        return Due::Save;
    }
    if after % commit == 0 {
        return Due::Commit;
    }
    Due::Nothing
}

ghost use Rattle.std.specs.Prelude.{◌≡◌, ◌⊎◌, ℕ, Some, None};
ghost use Rattle.rg_host.specs.Moments.{LeavesFiles};
ghost use Rattle.rg_messages.specs.Statuses.{last_line as status_line};
ghost use Rattle.rg_commands.specs.Call.{command_of, IsRun, ReadsPlan, TellsNoPlan};
ghost use Rattle.rg_commands.specs.Causes.{EveryCall, OkCause, PlanTold, StoreTold, GapTold, ReadCause, WriteCause, DiskCause, LimitCause, DiffersCause};
ghost use Rattle.rg_commands.specs.Checks.{CheckPromises};
ghost use Rattle.rg_commands.specs.Commands.{Promises, UsagePromises};
ghost use Rattle.rg_commands.specs.Dumps.{DumpPromises};
ghost use Rattle.rg_commands.specs.Infos.{InfoPromises};
ghost use Rattle.rg_commands.specs.Outcome.{source_outcome, host_outcome, outcome_of};
ghost use Rattle.rg_commands.specs.Replays.{ReplayPromises};
ghost use Rattle.rg_commands.specs.Runs.{RunPromises, OfRun, CompleteRun, EveryMoment, LastLineRun, NoReplyLost, SavedKept, RepliesPut};
ghost use Rattle.rg_commands.specs.Runs.{ResumesRun, GapAlways, LogStays, CompletesRun};
ghost use Rattle.rg_commands.specs.SelfTests.{SelfPromises};
ghost use Rattle.rg_commands.specs.Texts.{EndsWith, PutsLast};
ghost use Rattle.rg_commands.specs.Verifies.{VerifyPromises};

use crate::check_command::check;
use crate::command::Command;
use crate::dump_command::dump;
use crate::ending::Ending;
use crate::info_command::info;
use crate::last_line::end;
use crate::replay_command::replay;
use crate::run_command::run;
use crate::self_command::selftest;
use crate::verify_command::verify;
use rg_host::{Host, Source};
use rg_messages::{Refusal, Status};
use std::alloc::Global;

/// Refuses words that are no form of a command.
fn refuse_words<H: Host>(host: &mut H) -> Status
    ensures status { result ≡ Status.Usage }
    ensures put { PutsLast H.Host (status_line Status.Usage) host.old host.new }
{
    let done = Err(Ending::Failed(Status::Usage));
    end(host, &done)
}

/// Does what the words ask for.
fn carry_out<P: Source, I: Source, H: Host>(
    alloc: Global,
    words: &[String],
    plan: &mut P,
    input: &mut I,
    host: &mut H,
    refusal: &mut Option<Refusal>,
) -> Status
    ensures every { EveryCall (command_of words.now)
        (outcome_of P.Source I.Source H.Host plan.old plan.new input.old input.new host.old host.new) result refusal.new }
    ensures promises { Promises (command_of words.now) (outcome_of P.Source I.Source H.Host plan.old plan.new input.old input.new host.old host.new) result }
{
    let Some(command) = Command::named(words) else {
        return refuse_words(host);
    };
    match command {
        Command::Run(first) => run(alloc, first, plan, input, host, refusal),
        Command::Replay(first) => replay(alloc, first, plan, host, refusal),
        Command::Verify => verify(alloc, plan, host, refusal),
        Command::Check => check(alloc, plan, host, refusal),
        Command::Dump => dump(alloc, host),
        Command::Info => info(alloc, host),
        Command::Trial(lines, seed) => selftest(alloc, lines, seed, host),
    }
}

/// Does all that the program does, by the words after the program's name: `run PLAN STORE` answers the input
/// by the plan over the store, `check PLAN` prints the plan, `dump STORE` prints the log of the store, which
/// is file 2 of the host, `info STORE` says how much the log and the two slots, files 0 and 1, have,
/// `replay PLAN STORE` answers the log's events again by the plan, `verify PLAN STORE` holds the two slots
/// against the log's events, and `self N SEED` says what is counted of a run on N made lines.
///
/// Behind a run's store may stand the offset of the input's first line, at most 2^61, which must be at most
/// the store's next one, and behind a replay's the least offset of an event whose line is put, at most 2^62,
/// 0 where it isn't said. At most 65,536 bytes of `plan` and 2^50 bytes of `input` are taken, and one more
/// where there is one. What each command puts out stands at its own call. Another status than Ok and
/// Differs puts its last line behind whole lines of that. Why a plan was refused is left in `refusal`.
pub fn railgun<P: Source, I: Source, H: Host>(
    alloc: Global,
    words: &[String],
    plan: &mut P,
    input: &mut I,
    host: &mut H,
    refusal: &mut Option<Refusal>,
) -> Status
    // A run over a store that is ready: at status Ok all of its text was put out, and each image that might be left is truthful and has
    // just the events that it accepts.
    ensures complete_run { result ≡ Status.Ok →
        OfRun (command_of words.now) (outcome_of P.Source I.Source H.Host plan.old plan.new input.old input.new host.old host.new) CompleteRun }

    // At each moment, whatever the status, what was put and the image that a crash might leave are on the run's course.
    ensures every_moment { OfRun (command_of words.now)
        (outcome_of P.Source I.Source H.Host plan.old plan.new input.old input.new host.old host.new) (EveryMoment result) }

    // Unless a put failed, what was put is whole lines of the run's text, and then the last line of the status.
    ensures last_line_run { OfRun (command_of words.now)
        (outcome_of P.Source I.Source H.Host plan.old plan.new input.old input.new host.old host.new) (LastLineRun result) }

    // No reply is lost: the store is at most one line ahead of those that were answered.
    ensures no_reply_lost { OfRun (command_of words.now)
        (outcome_of P.Source I.Source H.Host plan.old plan.new input.old input.new host.old host.new) (NoReplyLost result) }

    // What the last line of a checkpoint says is saved is in a slot.
    ensures saved_kept { OfRun (command_of words.now) (outcome_of P.Source I.Source H.Host plan.old plan.new input.old input.new host.old host.new) SavedKept }

    // Where the input could not be read on, each line that LF ended was answered, and the last line follows, unless a put failed; where a
    // read of the plan failed, that line alone was put, and the input was left alone.
    ensures replies_put { (result ≡ Status.Read) ⊎ (result ≡ Status.Limit) →
        OfRun (command_of words.now) (outcome_of P.Source I.Source H.Host plan.old plan.new input.old input.new host.old host.new) (RepliesPut result) }

    // A run over what an earlier run of the same input left goes on with the text of one that is never stopped.
    ensures resumes { result ≡ Status.Ok →
        OfRun (command_of words.now) (outcome_of P.Source I.Source H.Host plan.old plan.new input.old input.new host.old host.new) ResumesRun }

    // A run goes on only where its first line is at most the store's next one.
    ensures gap_always { result ≡ Status.Ok →
        OfRun (command_of words.now) (outcome_of P.Source I.Source H.Host plan.old plan.new input.old input.new host.old host.new) GapAlways }

    // Over any log that is legal, whatever the slots hold, the log's payments stay at each moment of a run.
    ensures log_stays { (first : ℕ) → command_of words.now ≡ Some (Command.Run first) →
        LogStays (outcome_of P.Source I.Source H.Host plan.old plan.new input.old input.new host.old host.new) }

    // Where no count of faults rose, a run ends well, or for want of memory, where its input isn't too long and begins early enough.
    ensures completes_run { OfRun (command_of words.now)
        (outcome_of P.Source I.Source H.Host plan.old plan.new input.old input.new host.old host.new) (CompletesRun result) }

    // What else a run promises: a gap, a store that isn't fit, and a plan that is refused.
    ensures run { (first : ℕ) → command_of words.now ≡ Some (Command.Run first) →
        RunPromises first (outcome_of P.Source I.Source H.Host plan.old plan.new input.old input.new host.old host.new) result }

    // What each other command promises.
    ensures replay { (first : ℕ) → command_of words.now ≡ Some (Command.Replay first) →
        ReplayPromises first (source_outcome P.Source plan.old plan.new) (host_outcome H.Host host.old host.new) result }
    ensures verify { command_of words.now ≡ Some Command.Verify →
        VerifyPromises (source_outcome P.Source plan.old plan.new) (host_outcome H.Host host.old host.new) result }
    ensures check { command_of words.now ≡ Some Command.Check →
        CheckPromises (source_outcome P.Source plan.old plan.new) (host_outcome H.Host host.old host.new) result }
    ensures dump { command_of words.now ≡ Some Command.Dump → DumpPromises (host_outcome H.Host host.old host.new) result }
    ensures info { command_of words.now ≡ Some Command.Info → InfoPromises (host_outcome H.Host host.old host.new) result }
    ensures trial { (lines seed : ℕ) → command_of words.now ≡ Some (Command.Trial lines seed) →
        SelfPromises lines seed (host_outcome H.Host host.old host.new) result }

    // Words that are no form of a command are refused, and no others; nothing is put but the line that says so.
    ensures usage_only { result ≡ Status.Usage → command_of words.now ≡ None }
    ensures usage_always { command_of words.now ≡ None →
        UsagePromises (outcome_of P.Source I.Source H.Host plan.old plan.new input.old input.new host.old host.new) result }

    // Each other status has its cause. Memory alone is free.
    ensures ok_only { result ≡ Status.Ok →
        OkCause (command_of words.now) (outcome_of P.Source I.Source H.Host plan.old plan.new input.old input.new host.old host.new) }
    ensures plan_only { result ≡ Status.Plan →
        PlanTold (command_of words.now) (outcome_of P.Source I.Source H.Host plan.old plan.new input.old input.new host.old host.new) refusal.new }
    ensures store_only { result ≡ Status.Store →
        StoreTold (command_of words.now) (outcome_of P.Source I.Source H.Host plan.old plan.new input.old input.new host.old host.new) }
    ensures gap_only { result ≡ Status.Gap →
        GapTold (command_of words.now) (outcome_of P.Source I.Source H.Host plan.old plan.new input.old input.new host.old host.new) }
    ensures read_only { result ≡ Status.Read →
        ReadCause (command_of words.now) (outcome_of P.Source I.Source H.Host plan.old plan.new input.old input.new host.old host.new) }
    ensures write_only { result ≡ Status.Write →
        WriteCause (command_of words.now) (outcome_of P.Source I.Source H.Host plan.old plan.new input.old input.new host.old host.new) }
    ensures disk_only { result ≡ Status.Disk →
        DiskCause (command_of words.now) (outcome_of P.Source I.Source H.Host plan.old plan.new input.old input.new host.old host.new) }
    ensures limit_only { result ≡ Status.Limit →
        LimitCause (command_of words.now) (outcome_of P.Source I.Source H.Host plan.old plan.new input.old input.new host.old host.new) }
    ensures differs_only { result ≡ Status.Differs →
        DiffersCause (command_of words.now) (outcome_of P.Source I.Source H.Host plan.old plan.new input.old input.new host.old host.new) }

    // Each other status than Plan, Store and Gap, whose causes say so, is told by its own last line, unless a put failed.
    ensures failure_told { (result ≡ Status.Plan) ⊎ (result ≡ Status.Store) ⊎ (result ≡ Status.Gap)
        ⊎ EndsWith (host_outcome H.Host host.old host.new).said_after (status_line result) ⊎ (host_outcome H.Host host.old host.new).put_failed }

    // The words are looked at before the plan is read, the plan before the store, and the store before the input: where the plan is
    // refused, too long or can't be read, the input and the files are left alone. Only a run reads the input, and only a run, a replay, a
    // verify or a check the plan.
    ensures plan_first { (result ≡ Status.Plan) ⊎ TellsNoPlan (P.left plan.old) → input.new ≡ input.old }
    ensures read_first { result ≡ Status.Read →
        ((input.new ≡ input.old) × (host_outcome H.Host host.old host.new).files_stay) ⊎ (source_outcome I.Source input.old input.new).failed }
    ensures plan_alone { (ReadsPlan (command_of words.now) → ⊥) → plan.new ≡ plan.old }
    ensures input_alone { (IsRun (command_of words.now) → ⊥) → input.new ≡ input.old }

    // Only a run whose plan is read may write a file: else the files stay, and at each moment a crash might have left of them what it could
    // leave at the start.
    ensures files_stay { (IsRun (command_of words.now) → ⊥) ⊎ (result ≡ Status.Plan) ⊎ TellsNoPlan (P.left plan.old) →
        (host_outcome H.Host host.old host.new).files_stay }
{
    *refusal = None;
    carry_out(alloc, words, plan, input, host, refusal)
}

ghost use Rattle.std.specs.Prelude.{◌≡◌, ◌↔◌, ℕ, ◌+◌, ◌≤◌, ◌<◌, List, [], ◌∷◌, ◌++◌, length, true, false, Some, slice_get, All, IfOk, IfErr, OnOk, IsErrOf, vec_capacity};
ghost use Rattle.std.specs.Result.{is_err};
ghost use Rattle.std.specs.Borrow.{Lends, sem};
ghost use Rattle.rg_bytes.specs.Counts.{Rose};
ghost use Rattle.rg_event.specs.declared.event.Event.{Event};
ghost use Rattle.rg_metric.specs.Queries.{Asked};
ghost use Rattle.rg_metric.specs.Replies.{answers_to};
ghost use Rattle.rg_past.specs.Keeping.{Kept, HasCause};
ghost use Rattle.rg_past.specs.declared.past.Spot.{Spot};
ghost use Rattle.rg_event.specs.Rising.{MayFollow, last_time};
ghost use Rattle.rg_plan.specs.Plans.{plan_for};
ghost use Rattle.rg_state.specs.Keeping.{TableKept};
ghost use Rattle.rg_window.specs.Placed.{AreWithin, IsSpelledAt, numbers_of};
ghost use Rattle.rg_engine.specs.contracts.engine.Engine.{the_row};
ghost use Rattle.rg_engine.specs.Accepting.{IsPrepared, IsAccepted, MayAppend};
ghost use Rattle.rg_engine.specs.Carrying.{CarriesOn, EdgesMove, Appends, ends_by};
ghost use Rattle.rg_engine.specs.Faults.{RefusesAlways};
ghost use Rattle.rg_engine.specs.Passed.{AreAtPositions, passed_count};
ghost use Rattle.rg_engine.specs.Since.{KeepsSince};
ghost use Rattle.rg_engine.specs.Standing.{IsAtPosition, NodeStands, come};

use crate::answering::{answer_each, make_keys, make_room};
use crate::building::set_up;
use crate::changer::Rows;
use crate::fault::{EngineFault, is_ending, table_fault};
use crate::moving::move_rows;
use rg_bytes::Memory;
use rg_event::{Event, Steps};
use rg_group::Key;
use rg_metric::{Answer, Answers};
use rg_past::{Past, PastFault, Spot};
use rg_plan::{GroupNode, TaskPlan};
use rg_state::Table;
use rg_window::Edges;
use std::alloc::Global;
use std::marker::Model;
use std::mem;
use std::sync::ledger::Ledger;

/// An engine that answers each event by the rows of a table, which it changes by each event that
/// enters or leaves a window, and never walks the past again.
#[derive(Drop)]
pub struct Engine<T: Table> {
    alloc: Global,
    plan: TaskPlan,
    edges: Edges,
    rows: Rows<T>,
    /// The nodes of all aggregators of all queries, in order.
    nodes: Vec<u32>,
    /// A key for each group node, made anew for each event.
    keys: Vec<Key>,
    /// The list that the next event's answers are put into. Without one that was given back it has no
    /// room yet.
    spare: Vec<Answer>,
    ended: bool,
}

impl<T: Table> Model for Engine<T> {
    ghost use Rattle.rg_engine.specs.Seen.{Seen, seen_code};

    ghost Value = { Seen T };

    ghost coded = { seen_code T.code };

    ghost use Rattle.rg_engine.specs.Building.{IsBuilt};

    ghost view = { λ e. record { plan = e.plan; spots = e.edges.spots; table = e.rows.table; ended = e.ended } };

    ghost invariant = { λ e. IsBuilt e.plan e.edges e.rows.parts.items e.nodes.items e.keys.items };
}

impl<T: Table> Engine<T> {
    /// An engine of this plan over a table, whose edges stand at these spots, one for each offset of the
    /// plan. A refusal hands the table back.
    pub fn new(
        alloc: Global,
        plan: TaskPlan,
        table: T,
        at: &[Spot],
    ) -> Result<Engine<T>, (Memory, T)>
        requires { length at.now ≡ length plan.offsets }
        ensures plan { IfOk result (λ engine. engine.plan ≡ plan) }
        ensures spots { IfOk result (λ engine. engine.spots ≡ at.now) }
        ensures table { IfOk result (λ engine. engine.table ≡ table) }
        ensures ended { IfOk result (λ engine. engine.ended ≡ false) }
        ensures err { IfErr result (λ refused. refused.1 ≡ table) }
    {
        match set_up(alloc, &plan, at) {
            Err(memory) => return Err((memory, table)),
            Ok(made) => Ok(Engine {
                alloc,
                plan,
                edges: made.edges,
                rows: Rows {
                    parts: made.parts,
                    key: made.key,
                    table,
                },
                nodes: made.nodes,
                keys: made.keys,
                spare: Vec::new(alloc),
                ended: false,
            }),
        }
    }

    /// Appends an event to the past, moves the edges to its time, and answers it: for each aggregator of
    /// each query, in order, over the events, itself among them, that are in the query's window at its
    /// time, meet the condition and have its key. One step is counted for each filter node and each event
    /// that an edge of its window crossed.
    ///
    /// Where an edge stands at a spot whose look asks for an illegal place, the event is refused.
    ///
    /// A past that is full leaves all as it was. Any other refusal ends the engine: each later call is
    /// refused with `Ended`, and touches nothing.
    pub fn take<P: Past, L: Ledger>(
        &mut self,
        past: &mut P,
        event: Event,
        steps: &mut Steps<L>,
    ) -> Result<Answers, EngineFault>
        requires room { P.has_room past.old }
        requires fits { P.fits past.old event }
        requires follows { P.sound past.old → (P.ended past.old → ⊥) → MayFollow (P.events past.old) event }
        requires within { AreWithin self.old.spots (length (P.events past.old)) }

        // Each node by itself goes on to stand for all events, and each edge to be at its position.
        ensures stands { (n : ℕ) (first : List Event) →
            CarriesOn self.old.plan n (P.sound past.old) (P.spells past.old) (T.tells self.old.table)
            (P.events past.old) (P.events past.old ++ event ∷ []) first (T.cell self.old.table) self.old.spots →
            OnOk result (NodeStands self.old.plan n (P.events past.new) (T.cell self.new.table) (numbers_of self.new.spots)) }

        // A node that can be carried on is never told to be a bad state.
        ensures bad { (n : ℕ) (first : List Event) → IsErrOf result (EngineFault.BadState n) →
            CarriesOn self.old.plan n (P.sound past.old) (P.spells past.old) (T.tells self.old.table)
            (P.events past.old) (P.events past.old ++ event ∷ []) first (T.cell self.old.table) self.old.spots → ⊥ }

        // An edge that stood at its position in a prefix of the past stands at its position afterwards, whatever the
        // nodes are.
        ensures places { (edge offset : ℕ) (front more : List Event) → P.sound past.old →
            IsSpelledAt (P.spells past.old) self.old.spots edge → P.events past.old ≡ front ++ more →
            slice_get self.old.plan.offsets edge ≡ Some offset →
            IsAtPosition front (numbers_of self.old.spots) edge offset →
            OnOk result (IsAtPosition (P.events past.new) (numbers_of self.new.spots) edge offset) }

        // Where all nodes can be carried on, the answers are those from scratch.
        ensures answers { (queries : List Asked) (first : List Event) → self.old.plan ≡ plan_for queries →
            ((n : ℕ) → CarriesOn self.old.plan n (P.sound past.old) (P.spells past.old) (T.tells self.old.table)
            (P.events past.old) (P.events past.old ++ event ∷ []) first (T.cell self.old.table) self.old.spots) →
            IfOk result (λ answers. answers ≡ answers_to queries (P.events past.old ++ event ∷ []) event) }

        // The steps are how far the edges of each filter node's window came.
        ensures ticks { OnOk result (steps.new + come self.old.plan (numbers_of self.old.spots)
            ≡ steps.old + come self.old.plan (numbers_of self.new.spots)) }

        // Where the edges stood at their positions, the steps are how far these moved.
        ensures passed { (front more : List Event) → P.sound past.old → All (P.spells past.old) self.old.spots →
            P.events past.old ≡ front ++ more → AreAtPositions self.old.plan front (numbers_of self.old.spots) →
            OnOk result (steps.new ≡ steps.old + passed_count self.old.plan front (P.events past.new)) }

        // Over any past: what stands at an illegal place is neither an event nor the end.
        ensures legal { (edge : ℕ) (spot : Spot) → slice_get self.old.spots edge ≡ Some spot → P.asks_illegal past.old spot → OnOk result ⊥ }

        ensures appends { Appends (P.events past.old) event (P.events past.new) result }
        ensures below { OnOk result (length (P.events past.old) < P.limit past.old) }

        // A full past is told with nothing changed and no step counted.
        ensures full { IsErrOf result (EngineFault.Past PastFault.Full) →
            (self.new ≡ self.old) × (steps.new ≡ steps.old) × (P.events past.new ≡ P.events past.old) × P.has_room past.new }
        ensures always { self.old.ended ≡ false → RefusesAlways (P.ended past.old) (P.limit past.old ≤ length (P.events past.old)) result }

        // Each fault has its cause.
        ensures cause { (fault : PastFault) → IsErrOf result (EngineFault.Past fault) →
            HasCause (P.illegal past.new) (P.limit past.old ≤ length (P.events past.old)) (P.ended past.old)
            (P.faults past.old) (P.faults past.new) fault }
        ensures never_damaged { (place : ℕ) → P.sound past.old → All (P.spells past.old) self.old.spots →
            IsErrOf result (EngineFault.Past (PastFault.Damaged place)) → ⊥ }
        ensures table { IsErrOf result EngineFault.Table → Rose (T.faults self.old.table) (T.faults self.new.table) }

        // Exactly the refusals but that of a full past end an engine, which then answers Ended and touches nothing.
        ensures ended { IsErrOf result EngineFault.Ended ↔ (self.old.ended ≡ true) }
        ensures untouched { IsErrOf result EngineFault.Ended → (self.new ≡ self.old) × (past.new ≡ past.old) × (steps.new ≡ steps.old) }
        ensures ends { self.new.ended ≡ ends_by result }

        ensures plan { self.new.plan ≡ self.old.plan }

        // No edge goes back, and none comes behind the end.
        ensures edges { EdgesMove (P.sound past.old) (P.spells past.old) (P.spells past.new) (length (P.events past.new)) self.old.spots self.new.spots }

        // The past goes on, a sound one stays sound, and no fault of past or table is lost.
        ensures past { Kept P.goes P.sound P.ended P.faults past.old past.new }
        ensures rows { TableKept T.tells T.faults self.old.table self.new.table }

        // What the table's marks tell of changes, they tell afterwards too.
        ensures since { KeepsSince T.tells T.named T.there T.cell self.old.table self.new.table }
    {
        if self.ended {
            drop(event);
            return Err(EngineFault::Ended);
        }
        self.ended = true;
        let time = event.time;
        match accept(
            past,
            event,
            self.plan.groups(),
            &mut self.keys,
            self.nodes.len(),
            &mut self.spare,
        ) {
            Err(fault) => {
                self.ended = is_ending(fault);
                return Err(fault);
            }
            Ok(()) => {}
        }
        match move_rows(
            &self.plan,
            &mut self.edges,
            &mut self.rows,
            past,
            time,
            steps,
        ) {
            Err(fault) => return Err(fault),
            Ok(()) => {}
        }
        match answer_each(
            &mut self.rows.table,
            self.plan.aggs(),
            &self.nodes,
            &self.keys,
            &mut self.spare,
        ) {
            Err(fault) => return Err(table_fault(fault)),
            Ok(()) => {
                self.ended = false;
                let answers = mem::replace(&mut self.spare, Vec::new(self.alloc));
                Ok(Answers::from(answers))
            }
        }
    }

    /// Answers the last event of the past as `take` does, and appends nothing: the edges move to its time,
    /// and each aggregator of each query is answered over the past's events, which end with this one.
    /// Any refusal ends the engine.
    pub fn answer<P: Past, L: Ledger>(
        &mut self,
        past: &mut P,
        event: &Event,
        steps: &mut Steps<L>,
    ) -> Result<Answers, EngineFault>
        requires within { AreWithin self.old.spots (length (P.events past.old)) }
        // A node that can be carried on stands for all events afterwards.
        ensures stands { (n : ℕ) (first front : List Event) → P.events past.old ≡ front ++ event.now ∷ [] →
            CarriesOn self.old.plan n (P.sound past.old) (P.spells past.old) (T.tells self.old.table)
            (P.events past.old) (P.events past.old) first (T.cell self.old.table) self.old.spots →
            OnOk result (NodeStands self.old.plan n (P.events past.new) (T.cell self.new.table) (numbers_of self.new.spots)) }

        // Such a node is never told to be a bad state.
        ensures bad { (n : ℕ) (first front : List Event) → P.events past.old ≡ front ++ event.now ∷ [] →
            IsErrOf result (EngineFault.BadState n) →
            CarriesOn self.old.plan n (P.sound past.old) (P.spells past.old) (T.tells self.old.table)
            (P.events past.old) (P.events past.old) first (T.cell self.old.table) self.old.spots → ⊥ }

        // Where the event is the last one and all nodes can be carried on, the answers are those from scratch.
        ensures answers { (queries : List Asked) (first front : List Event) → self.old.plan ≡ plan_for queries →
            P.events past.old ≡ front ++ event.now ∷ [] →
            ((n : ℕ) → CarriesOn self.old.plan n (P.sound past.old) (P.spells past.old) (T.tells self.old.table)
            (P.events past.old) (P.events past.old) first (T.cell self.old.table) self.old.spots) →
            IfOk result (λ answers. answers ≡ answers_to queries (P.events past.old) event.now) }

        ensures ticks { OnOk result (steps.new + come self.old.plan (numbers_of self.old.spots)
            ≡ steps.old + come self.old.plan (numbers_of self.new.spots)) }

        // Over any past: what stands at an illegal place is neither an event nor the end.
        ensures legal { (edge : ℕ) (spot : Spot) → slice_get self.old.spots edge ≡ Some spot → P.asks_illegal past.old spot → OnOk result ⊥ }

        // Nothing is appended.
        ensures events { P.events past.new ≡ P.events past.old }
        ensures room { P.has_room past.old → P.has_room past.new }

        // Each fault has its cause.
        ensures cause { (fault : PastFault) → IsErrOf result (EngineFault.Past fault) →
            HasCause (P.illegal past.new) ⊥ (P.ended past.old) (P.faults past.old) (P.faults past.new) fault }
        ensures never_damaged { (place : ℕ) → P.sound past.old → All (P.spells past.old) self.old.spots →
            IsErrOf result (EngineFault.Past (PastFault.Damaged place)) → ⊥ }
        ensures table { IsErrOf result EngineFault.Table → Rose (T.faults self.old.table) (T.faults self.new.table) }
        ensures ended { IsErrOf result EngineFault.Ended ↔ (self.old.ended ≡ true) }
        ensures ends { self.new.ended ≡ is_err result }
        ensures plan { self.new.plan ≡ self.old.plan }
        ensures edges { EdgesMove (P.sound past.old) (P.spells past.old) (P.spells past.new) (length (P.events past.new)) self.old.spots self.new.spots }
        ensures past { Kept P.goes P.sound P.ended P.faults past.old past.new }
        ensures rows { TableKept T.tells T.faults self.old.table self.new.table }

        // What the table's marks tell of changes, they tell afterwards too.
        ensures since { KeepsSince T.tells T.named T.there T.cell self.old.table self.new.table }
    {
        if self.ended {
            return Err(EngineFault::Ended);
        }
        self.ended = true;
        match prepare(
            event,
            self.plan.groups(),
            &mut self.keys,
            self.nodes.len(),
            &mut self.spare,
        ) {
            Err(_) => return Err(EngineFault::Memory),
            Ok(()) => {}
        }
        match move_rows(
            &self.plan,
            &mut self.edges,
            &mut self.rows,
            past,
            event.time,
            steps,
        ) {
            Err(fault) => return Err(fault),
            Ok(()) => {}
        }
        match answer_each(
            &mut self.rows.table,
            self.plan.aggs(),
            &self.nodes,
            &self.keys,
            &mut self.spare,
        ) {
            Err(fault) => return Err(table_fault(fault)),
            Ok(()) => {
                self.ended = false;
                let answers = mem::replace(&mut self.spare, Vec::new(self.alloc));
                Ok(Answers::from(answers))
            }
        }
    }

    /// Takes a list of answers back, so that the answers to the next event are put into its room and
    /// take no memory.
    pub fn reuse(&mut self, answers: Answers)
        // It takes a list of answers back for its room, and is as it was.
        ensures { self.new ≡ self.old }
    {
        self.spare = answers.into_vec();
    }

    /// Moves the edges to time t over the past, and changes the rows by what they cross, as `take` does.
    /// A refusal ends the engine.
    pub fn replay<P: Past, L: Ledger>(
        &mut self,
        past: &mut P,
        t: u64,
        steps: &mut Steps<L>,
    ) -> Result<(), EngineFault>
        requires within { AreWithin self.old.spots (length (P.events past.old)) }
        // Each node that stood for a prefix of the past stands for all of it.
        ensures stands { (n : ℕ) (first : List Event) → last_time (P.events past.old) ≡ t →
            CarriesOn self.old.plan n (P.sound past.old) (P.spells past.old) (T.tells self.old.table)
            (P.events past.old) (P.events past.old) first (T.cell self.old.table) self.old.spots →
            OnOk result (NodeStands self.old.plan n (P.events past.new) (T.cell self.new.table) (numbers_of self.new.spots)) }

        // Such a node is never told to be a bad state.
        ensures bad { (n : ℕ) (first : List Event) → IsErrOf result (EngineFault.BadState n) →
            CarriesOn self.old.plan n (P.sound past.old) (P.spells past.old) (T.tells self.old.table)
            (P.events past.old) (P.events past.old) first (T.cell self.old.table) self.old.spots → ⊥ }

        // Each edge that stood at its position in a prefix stands at its position in all of it.
        ensures places { (edge offset : ℕ) (front more : List Event) → P.sound past.old →
            IsSpelledAt (P.spells past.old) self.old.spots edge → P.events past.old ≡ front ++ more →
            last_time (P.events past.old) ≡ t → slice_get self.old.plan.offsets edge ≡ Some offset →
            IsAtPosition front (numbers_of self.old.spots) edge offset →
            OnOk result (IsAtPosition (P.events past.new) (numbers_of self.new.spots) edge offset) }
        ensures ticks { OnOk result (steps.new + come self.old.plan (numbers_of self.old.spots)
            ≡ steps.old + come self.old.plan (numbers_of self.new.spots)) }
        ensures passed { (front more : List Event) → P.sound past.old → All (P.spells past.old) self.old.spots →
            P.events past.old ≡ front ++ more → last_time (P.events past.old) ≡ t →
            AreAtPositions self.old.plan front (numbers_of self.old.spots) →
            OnOk result (steps.new ≡ steps.old + passed_count self.old.plan front (P.events past.new)) }

        // Over any past: what stands at an illegal place is neither an event nor the end.
        ensures legal { (edge : ℕ) (spot : Spot) → slice_get self.old.spots edge ≡ Some spot → P.asks_illegal past.old spot → OnOk result ⊥ }

        // Nothing is appended.
        ensures events { P.events past.new ≡ P.events past.old }
        ensures room { P.has_room past.old → P.has_room past.new }
        ensures ended_always { self.old.ended ≡ false → P.ended past.old → 0 < length self.old.plan.offsets →
            IsErrOf result (EngineFault.Past PastFault.Ended) }

        // Each fault has its cause.
        ensures cause { (fault : PastFault) → IsErrOf result (EngineFault.Past fault) →
            HasCause (P.illegal past.new) ⊥ (P.ended past.old) (P.faults past.old) (P.faults past.new) fault }
        ensures never_damaged { (place : ℕ) → P.sound past.old → All (P.spells past.old) self.old.spots →
            IsErrOf result (EngineFault.Past (PastFault.Damaged place)) → ⊥ }
        ensures table { IsErrOf result EngineFault.Table → Rose (T.faults self.old.table) (T.faults self.new.table) }

        ensures ended { IsErrOf result EngineFault.Ended ↔ (self.old.ended ≡ true) }
        ensures untouched { IsErrOf result EngineFault.Ended → (self.new ≡ self.old) × (past.new ≡ past.old) × (steps.new ≡ steps.old) }
        ensures ends { self.new.ended ≡ is_err result }

        ensures plan { self.new.plan ≡ self.old.plan }
        ensures edges { EdgesMove (P.sound past.old) (P.spells past.old) (P.spells past.new) (length (P.events past.new)) self.old.spots self.new.spots }
        ensures past { Kept P.goes P.sound P.ended P.faults past.old past.new }
        ensures rows { TableKept T.tells T.faults self.old.table self.new.table }

        // What the table's marks tell of changes, they tell afterwards too.
        ensures since { KeepsSince T.tells T.named T.there T.cell self.old.table self.new.table }
    {
        if self.ended {
            return Err(EngineFault::Ended);
        }
        self.ended = true;
        match move_rows(&self.plan, &mut self.edges, &mut self.rows, past, t, steps) {
            Err(fault) => return Err(fault),
            Ok(()) => {
                self.ended = false;
                Ok(())
            }
        }
    }

    /// Its plan.
    pub fn plan(&self) -> &TaskPlan
        ensures { result.now ≡ self.now.plan }
    {
        &self.plan
    }

    /// Where its edges stand, one spot for each offset of the plan.
    pub fn spots(&self) -> &[Spot]
        // A checkpoint is written from these spots and the table.
        ensures spots { result.now ≡ self.now.spots }
        ensures same { length self.now.spots ≡ length self.now.plan.offsets }
    {
        self.edges.spots()
    }

    /// Its table. Plan, spots and whether it has ended stay, whatever the caller does to the table.
    pub fn table(&mut self) -> &mut T
        // The table that is lent can change alone.
        ensures* writes_back { sem 𝓛 (Lends (the_row T.row T.Table) T.row self.entry result (λ table. record self.old { table = table })) }
        ensures value { result.now ≡ self.old.table }
    {
        let rows = &mut self.rows;
        &mut rows.table
    }

    /// Its table, where nothing more is asked of it.
    pub fn into_table(self) -> T
        ensures { result ≡ self.table }
    {
        let Engine { rows, .. } = self;
        let Rows { table, .. } = rows;
        table
    }
}

/// Makes the key of an event at each group node, and room for so many answers to it in an empty list.
fn prepare(
    event: &Event,
    groups: &[GroupNode],
    keys: &mut Vec<Key>,
    count: usize,
    answers: &mut Vec<Answer>,
) -> Result<(), Memory>
    requires keys { length keys.old.items ≡ length groups.now }
    ensures prepared { IsPrepared groups.now event.now count result keys.old.items keys.new.items answers.new.items (vec_capacity answers.new) }
{
    make_keys(keys, groups, event)?;
    make_room(answers, count)
}

/// Appends an event to a past, once its key at each group node is made and a list has room for so many
/// answers to it.
fn accept<P: Past>(
    past: &mut P,
    event: Event,
    groups: &[GroupNode],
    keys: &mut Vec<Key>,
    count: usize,
    answers: &mut Vec<Answer>,
) -> Result<(), EngineFault>
    requires keys { length keys.old.items ≡ length groups.now }
    requires may { MayAppend (P.has_room past.old) (P.fits past.old event) (P.sound past.old) (P.ended past.old) (P.events past.old) event }
    ensures prepared { IsPrepared groups.now event count result keys.old.items keys.new.items answers.new.items (vec_capacity answers.new) }
    ensures accepted { IsAccepted event (P.ended past.old) (P.limit past.old) (P.events past.old) (P.events past.new) (P.has_room past.old) (P.has_room past.new) result }
    ensures past { Kept P.goes P.sound P.ended P.faults past.old past.new }
{
    match prepare(&event, groups, keys, count, answers) {
        Err(_) => return Err(EngineFault::Memory),
        Ok(()) => {}
    }
    match past.append(event) {
        Err(fault) => return Err(EngineFault::Past(fault)),
        Ok(()) => Ok(()),
    }
}

ghost use Rattle.std.specs.Prelude.{◌≡◌, ◌≢◌, ◌⊎◌, ◌≤◌, ◌<◌, ℕ, List, [], length, Option, All};
ghost use Rattle.rg_host.specs.Image.{Image, Becomes, InFile, NothingPending};
ghost use Rattle.rg_event.specs.Shapes.{Shape, IsSchema};
ghost use Rattle.rg_event.specs.declared.event.Event.{Event};
ghost use Rattle.rg_growth.specs.Payloads.{IsGrowth};
ghost use Rattle.rg_growth.specs.declared.growth.Growth.{Growth};
ghost use Rattle.rg_frame.specs.Frames.{HasPayloads};
ghost use Rattle.rg_frame.specs.Steps.{Leaves, From, Grows};
ghost use Rattle.rg_log.specs.Log.{schema_payload, IsChunkOf, HasEvents, IsInForce};
ghost use Rattle.rg_log.specs.Spots.{SpotIn};
ghost use Rattle.rg_config.specs.Plans.{Planned};
ghost use Rattle.rg_config.specs.Read.{IsSaid};
ghost use Rattle.rg_plan.specs.Plans.{plan_for};
ghost use Rattle.rg_state.specs.Rows.{Cells, Lists};
ghost use Rattle.rg_engine.specs.Feeding.{Serves};
ghost use Rattle.rg_checkpoint.specs.declared.base.Checkpoint.{Checkpoint};
ghost use Rattle.rg_checkpoint.specs.declared.sizes.SlotSizes.{SlotSizes};
ghost use Rattle.rg_checkpoint.specs.Sizes.{OfSizes};
ghost use Rattle.rg_checkpoint.specs.Slots.{HasSlot, HasNoSlot, Turns, Written, Lengthens, Lengthened, other_of, IsKeep};
ghost use Rattle.rg_checkpoint.specs.Base.{IsBase};
ghost use Rattle.rg_restore.specs.Fit.{IsFit};
ghost use Rattle.rg_restore.specs.Truthful.{IsTruthful};
ghost use Rattle.rg_reservoir.specs.Attached.{LogOpens};
ghost use Rattle.rg_reservoir.specs.Kept.{base, opened, all_events, Adds, Added};
ghost use Rattle.rg_reservoir.specs.declared.reservoir.Reservoir.{Reservoir};
ghost use Rattle.rg_run_spec.specs.Steps.{IsMidStep, IsStepped, IsSavedTo};
ghost use Rattle.rg_open.specs.Truth.{texts_of, IsTrueOf, IsTruthfulImage, MayGrow};
ghost use Rattle.rg_open.specs.Stores.{store_of};
ghost use Rattle.rg_open.specs.Opened.{IsOpenedFor, IsToSave, IsToExtend};

use rg_host::Host;

/// The image without a byte is truthful, and a truthful image stays truthful: within a commit and after it,
/// with the schema's frame behind a log without one, with a growth of the schema behind the log, with a slot
/// that is as it was, is lost or has a checkpoint that is true of the log, and with a slot that is as it was
/// or is lost.
pub fn law_truthful()
    // The empty image is truthful, and a truthful one stays so within and after each step on the disk.
    ensures empty { IsTruthfulImage (λ file. []) }
    ensures commits { (shape : Shape) (payload : List ℕ) (chunk : List Event) (old new : Image) → IsSchema shape → MayGrow shape chunk (old 2) → IsChunkOf shape payload chunk →
        Grows payload (old 2) (new 2) → ((file : ℕ) → file ≢ 2 → new file ≡ old file) → IsTruthfulImage old → IsTruthfulImage new }
    ensures begins { (shape : Shape) (old new : Image) → IsSchema shape → HasPayloads [] (old 2) → Grows (schema_payload shape) (old 2) (new 2) →
        ((file : ℕ) → file ≢ 2 → new file ≡ old file) → IsTruthfulImage old → IsTruthfulImage new }
    ensures grows { (shape : Shape) (growth : Growth) (payload : List ℕ) (old new : Image) → IsInForce shape (old 2) → IsGrowth shape payload growth → Grows payload (old 2) (new 2) →
        ((file : ℕ) → file ≢ 2 → new file ≡ old file) → IsTruthfulImage old → IsTruthfulImage new }
    ensures writes { (slot : ℕ) (old new : Image) (checkpoint : Checkpoint) → slot < 2 → ((file : ℕ) → file ≢ slot → new file ≡ old file) →
        (new slot ≡ old slot) ⊎ (HasNoSlot (new slot) ⊎ HasSlot (new slot) checkpoint) → IsTrueOf (old 2) checkpoint → IsTruthfulImage old → IsTruthfulImage new }
    ensures loses { (slot : ℕ) (old new : Image) → slot < 2 → ((file : ℕ) → file ≢ slot → new file ≡ old file) → (new slot ≡ old slot) ⊎ HasNoSlot (new slot) → IsTruthfulImage old → IsTruthfulImage new }
{}

/// A complete slot of a plan's queries, in a truthful image whose log has the plan's schema, is a checkpoint
/// of the plan that is true of the log's events; and it is fit. What is saved of an engine in step with a
/// reservoir is true of each log that might be left.
pub fn law_checkpoints<H: Host>()
    ensures of_plan { (plan : Planned) (v : Image) (events : List Event) (slot : ℕ) (checkpoint : Checkpoint) → All (IsSaid plan.shape) plan.queries → IsInForce plan.shape (v 2) → HasEvents plan.shape events (v 2) →
        IsTruthfulImage v → slot < 2 → HasSlot (v slot) checkpoint → checkpoint.queries ≡ texts_of plan.shape plan.queries → IsTruthful (SpotIn (v 2)) (plan_for plan.queries) events checkpoint }
    ensures fit { (plan : Planned) (v : Image) (events : List Event) (slot : ℕ) (checkpoint : Checkpoint) → All (IsSaid plan.shape) plan.queries → Serves plan.shape.fields (plan_for plan.queries) →
        IsInForce plan.shape (v 2) → HasEvents plan.shape events (v 2) → IsTruthfulImage v → slot < 2 → HasSlot (v slot) checkpoint → checkpoint.queries ≡ texts_of plan.shape plan.queries →
        IsFit (SpotIn (v 2)) (texts_of plan.shape plan.queries) plan.shape.fields (plan_for plan.queries) (length events) checkpoint }
    ensures saved { (plan : Planned) (host : H) (r : Reservoir) (cells : Cells) (checkpoint : Checkpoint) → IsToSave plan (H.now host) (H.may host) r cells checkpoint.spots checkpoint.queries → Lists cells checkpoint.rows →
        checkpoint.count ≡ length (all_events (H.now host) (base r) (opened r)) → (u : Image) → H.may host u → IsTrueOf (u 2) checkpoint }
{}

/// Each step on the disk, at a moment of it and after it, as a step of the store of the plan: a commit of the
/// open chunk of a sound reservoir, the opening of a log, a save of a checkpoint that is true, and changes
/// behind a checkpoint that make a true one of it.
pub fn law_steps<H: Host>()
    ensures commits { (host : H) (plan : Planned) (keep : Option ℕ) (r : Reservoir) (u : Image) → IsOpenedFor plan (H.now host) (H.may host) r → length (opened r) ≤ 4096 →
        Leaves 2 (From (base r).end (Adds (base r).shape.fields (opened r))) (H.now host) (H.may host) u → IsMidStep (store_of plan) keep (opened r) (H.may host) u }
    ensures committed { (host next : H) (plan : Planned) (keep : Option ℕ) (r : Reservoir) (end : ℕ) → IsOpenedFor plan (H.now host) (H.may host) r → length (opened r) ≤ 4096 →
        Becomes (H.now host) (H.now next) (InFile 2 (From (base r).end (Added (base r).shape.fields (opened r) end))) → NothingPending 2 (H.now next) (H.may next) →
        ((u : Image) → H.may next u → Leaves 2 (From (base r).end (Adds (base r).shape.fields (opened r))) (H.now host) (H.may host) u) →
        (u : Image) → H.may next u → IsStepped (store_of plan) keep (opened r) (H.may host) u }
    ensures opens { (host : H) (plan : Planned) (keep : Option ℕ) (v u : Image) → IsSchema plan.shape → H.now host ≡ Option.Some v → NothingPending 2 (H.now host) (H.may host) →
        Leaves 2 (LogOpens plan.shape plan.defaults) (H.now host) (H.may host) u → IsMidStep (store_of plan) keep [] (H.may host) u × IsStepped (store_of plan) keep [] (H.may host) u }
    ensures saves { (host : H) (plan : Planned) (keep : Option ℕ) (payload : List ℕ) (checkpoint : Checkpoint) (v u : Image) → IsKeep keep → IsBase payload checkpoint → H.now host ≡ Option.Some v → NothingPending (other_of keep) (H.now host) (H.may host) →
        ((w : Image) → H.may host w → IsTrueOf (w 2) checkpoint) → Leaves (other_of keep) (Turns payload) (H.now host) (H.may host) u → IsMidStep (store_of plan) keep [] (H.may host) u }
    ensures saved { (host : H) (plan : Planned) (keep : Option ℕ) (payload : List ℕ) (checkpoint : Checkpoint) (v u : Image) → IsKeep keep → IsBase payload checkpoint → H.now host ≡ Option.Some v → NothingPending (other_of keep) (H.now host) (H.may host) →
        ((w : Image) → H.may host w → IsTrueOf (w 2) checkpoint) → checkpoint.queries ≡ texts_of plan.shape plan.queries → Leaves (other_of keep) (Written payload) (H.now host) (H.may host) u →
        IsSavedTo (store_of plan) (other_of keep) checkpoint.count (H.may host) u }

    // Changes behind the checkpoint of a slot, whichever is kept: it is as it was, or the new one; and then the new one.
    ensures extends { (host : H) (plan : Planned) (keep : Option ℕ) (slot : ℕ) (sizes : Option SlotSizes) (payload : List ℕ) (before after : Checkpoint) (u : Image) → IsToExtend plan (H.now host) (H.may host) slot sizes payload before after →
        Leaves slot (OfSizes sizes (Lengthens payload)) (H.now host) (H.may host) u → IsMidStep (store_of plan) keep [] (H.may host) u }
    ensures extended { (host : H) (plan : Planned) (slot : ℕ) (sizes : Option SlotSizes) (payload : List ℕ) (before after : Checkpoint) (u : Image) → IsToExtend plan (H.now host) (H.may host) slot sizes payload before after →
        Leaves slot (OfSizes sizes (Lengthened payload)) (H.now host) (H.may host) u → IsSavedTo (store_of plan) slot after.count (H.may host) u }
{}

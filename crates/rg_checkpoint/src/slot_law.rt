ghost use Rattle.std.specs.Prelude.{◌≡◌, ◌↔◌, ◌<◌, ℕ, List, [], ◌∷◌, ◌++◌, length};
ghost use Rattle.rg_frame.specs.Frames.{HasPayloads};
ghost use Rattle.rg_frame.specs.Steps.{Grown};
ghost use Rattle.rg_checkpoint.specs.Base.{IsBase};
ghost use Rattle.rg_checkpoint.specs.Sizes.{HasSizes, sizes_of, more_sizes, end_of};
ghost use Rattle.rg_checkpoint.specs.Slots.{IsOnly, Says, HasSlot, HasNoSlot};
ghost use Rattle.rg_checkpoint.specs.Updates.{Applies};
ghost use Rattle.rg_checkpoint.specs.declared.base.Checkpoint.{Checkpoint};
ghost use Rattle.rg_checkpoint.specs.declared.sizes.SlotSizes.{SlotSizes};

/// What the frames of a slot say: one checkpoint at most, and of what sizes they are.
pub fn law_slots()
    // A slot has one checkpoint.
    ensures one { (bytes : List ℕ) (a b : Checkpoint) → HasSlot bytes a → HasSlot bytes b → a ≡ b }
    ensures none { (bytes : List ℕ) → HasPayloads [] bytes → HasNoSlot bytes }

    // A slot of one base payload has the checkpoint of that, and no other.
    ensures base { (payload bytes : List ℕ) (checkpoint : Checkpoint) → IsOnly payload bytes → HasSlot bytes checkpoint ↔ IsBase payload checkpoint }

    // A change payload behind others is applied to what those say.
    ensures more { (payloads : List (List ℕ)) (payload : List ℕ) (before after : Checkpoint) → Says payloads before → Applies payload before after → Says (payloads ++ payload ∷ []) after }

    // The sizes that are told of a slot are those of the payloads that it has.
    ensures base_sizes { (payload bytes : List ℕ) → IsOnly payload bytes → HasSizes bytes (sizes_of (length payload)) }
    ensures more_sizes { (payload old new : List ℕ) (sizes : SlotSizes) → HasSizes old sizes → Grown payload old new → HasSizes new (more_sizes sizes (length payload)) }
    ensures reaches { (bytes : List ℕ) (sizes : SlotSizes) → HasSizes bytes sizes → end_of sizes < length bytes }
{}

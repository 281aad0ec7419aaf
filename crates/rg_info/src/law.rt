ghost use Rattle.std.specs.Prelude.{◌≡◌, ◌+◌, [], ℕ, List, length};
ghost use Rattle.rg_event.specs.Shapes.{Shape};
ghost use Rattle.rg_frame.specs.Frames.{HasPayloads};
ghost use Rattle.rg_host.specs.Image.{Image};
ghost use Rattle.rg_log.specs.Log.{IsInForce, IsLegalLog};
ghost use Rattle.rg_log.specs.Stages.{Stage, logged};
ghost use Rattle.rg_info.specs.Info.{IsInfo, LogSays};

/// The lines on a store are told by its image. Those of a legal log of these stages say how many
/// events and frames it has, and what its last event was; those of a log without frames say so.
pub fn law_info()
    // An image has one such text.
    ensures one { (v : Image) (a b : List (List ℕ)) → IsInfo v a → IsInfo v b → a ≡ b }
    ensures legal { (shape : Shape) (stages : List Stage) (v : Image) (lines : List (List ℕ)) → IsInForce shape (v 2) → IsLegalLog shape stages (v 2) → IsInfo v lines → LogSays (logged stages) (1 + length stages) lines }
    ensures empty { (v : Image) (lines : List (List ℕ)) → HasPayloads [] (v 2) → IsInfo v lines → LogSays [] 0 lines }
{}

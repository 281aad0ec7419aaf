ghost use Rattle.std.specs.Prelude.{◌≡◌, ◌<◌, ◌^◌, ℕ, List, Ok, Err, Some, None, All, length};
ghost use Rattle.rg_frame.specs.Bytes.{IsByte};
ghost use Rattle.rg_frame.specs.FrameList.{frame_list, payloads_in};
ghost use Rattle.rg_frame.specs.Frames.{HasPayloads, IsDamaged, payload_at};
ghost use Rattle.rg_frame.specs.Looks.{HoldsFrame, IsClosed, IsTorn};

/// A file has one frame list, which is what `frame_list` reads, or that list is undefined at one
/// place, which it tells.
pub fn law_frames()
    // A file has one frame list, or is damaged at one place.
    ensures listed { (payloads : List (List ℕ)) (bytes : List ℕ) → HasPayloads payloads bytes → frame_list bytes ≡ Ok payloads }
    ensures defined { (payloads : List (List ℕ)) (bytes : List ℕ) → HasPayloads payloads bytes → payloads_in bytes ≡ Some payloads }
    ensures unique { (a b : List (List ℕ)) (bytes : List ℕ) → HasPayloads a bytes → HasPayloads b bytes → a ≡ b }
    ensures undefined { (place : ℕ) (bytes : List ℕ) → IsDamaged place bytes → frame_list bytes ≡ Err place }

    // In a file, whose numbers are bytes, what is read is the frame list, and where none is read it is undefined.
    ensures is_listed { (bytes : List ℕ) (payloads : List (List ℕ)) → All IsByte bytes → frame_list bytes ≡ Ok payloads → HasPayloads payloads bytes }
    ensures is_undefined { (bytes : List ℕ) (place : ℕ) → All IsByte bytes → frame_list bytes ≡ Err place → IsDamaged place bytes }
{}

/// At each place of a file at most one of three things stands: a whole frame, of one payload, no
/// open gate, or an open gate without a whole frame. So the answers of a reading exclude each other.
pub fn law_places()
    // At a place stands a whole frame, no open gate, or an open gate without a whole frame, and no two of these.
    ensures whole { (place : ℕ) (payload bytes : List ℕ) → HoldsFrame place payload bytes → length payload < 2 ^ 64 → payload_at place bytes ≡ Some payload }
    ensures closed { (place : ℕ) (bytes : List ℕ) → IsClosed place bytes → payload_at place bytes ≡ None }
    ensures torn { (place : ℕ) (bytes : List ℕ) → IsTorn place bytes → payload_at place bytes ≡ None }
    ensures damaged { (place : ℕ) (bytes : List ℕ) → IsDamaged place bytes → IsTorn place bytes }
    ensures apart { (place : ℕ) (bytes : List ℕ) → IsClosed place bytes → ¬ IsTorn place bytes }
{}

ghost use Rattle.std.specs.Prelude.{◌≡◌, ◌⊎◌, ℕ, List, [], ◌++◌, drop};
ghost use Rattle.rg_pipe.specs.Sent.{Sent};
ghost use Rattle.rg_pipe.specs.State.{PipeState};
ghost use Rattle.rg_pipe.specs.Handing.Given.{row};
ghost use Rattle.rg_pipe.specs.Handing.{Given, Feeds, Hands};
ghost use Rattle.rg_pipe.specs.Hand.{IsPart, BeginsNone, IsShort};
ghost use Rattle.rg_pipe.specs.Streams.{IsStream, Call, Runs, HandsOut, HandsAll, HandsNext, IsNextLine, bytes_in, fresh};

/// Wherever a stream is cut into pieces, and whenever a pipe is asked, it hands out the first requests of the stream,
/// in order, each once. Once all bytes were taken and no whole request is in hand, it has handed out all of them, and
/// the rest of the stream is in hand. A proper prefix of a request that is in hand lacks some byte, so that `feed` takes
/// one more.
pub fn law_pieces()
    ensures front { (expected : ℕ) (calls : List Call) (now : PipeState) (requests : List Sent) (rest more bytes : List ℕ) →
        Runs (fresh expected) calls now → IsStream requests rest bytes → bytes_in calls ++ more ≡ bytes → HandsOut expected requests rest more calls now }
    ensures all { (expected : ℕ) (calls : List Call) (now : PipeState) (requests : List Sent) (rest bytes : List ℕ) →
        Runs (fresh expected) calls now → IsStream requests rest bytes → bytes_in calls ≡ bytes → IsPart now.pending ⊎ BeginsNone now.pending →
        HandsAll expected requests rest calls now }
    ensures lacks { (bytes : List ℕ) → IsPart bytes → IsShort bytes }
{}

/// One step of a pipe whose stream goes on behind the bytes in hand with `more`. Bytes that are fed leave the stream as it
/// is; a request that is handed out is the next one of the stream, and a line has the expected offset; where a proper prefix of a request is in hand and no
/// byte is to come, or where what is in hand begins no request, the stream has no further one.
pub fn law_next()
    ensures fed { (old new : PipeState) (piece more : List ℕ) (n : ℕ) → Feeds old new piece n →
        new.pending ++ (drop n piece ++ more) ≡ old.pending ++ (piece ++ more) }
    ensures handed { (old new : PipeState) (given : Given) (requests : List Sent) (rest more : List ℕ) →
        Hands old new given → IsStream requests rest (old.pending ++ more) → HandsNext requests rest more old new given }
    ensures line { (old new : PipeState) (offset : ℕ) (text : List ℕ) → Hands old new (row offset text) → IsNextLine old.expected offset text }
    ensures ended { (requests : List Sent) (rest pending : List ℕ) → IsPart pending → IsStream requests rest pending → (requests ≡ []) × (rest ≡ pending) }
    ensures refused { (requests : List Sent) (rest pending more : List ℕ) → BeginsNone pending → IsStream requests rest (pending ++ more) →
        (requests ≡ []) × (rest ≡ pending ++ more) }
{}

/// A stream has one list of requests and one rest.
pub fn law_stream()
    ensures one { (requests others : List Sent) (rest other bytes : List ℕ) → IsStream requests rest bytes → IsStream others other bytes → (requests ≡ others) × (rest ≡ other) }
{}

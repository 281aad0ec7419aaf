//! The grammar of query texts, a reading of it token by token, and the laws that join the two.
//!
//! The definitions are in `specs/`: `Grammar` has the trees of the rules and the tokens that each tree spells, `Machine`
//! the reading, `Printed` how a query is written, `Erase` tokens without their places. Each law is a function without
//! arguments whose clauses state it; none of them does anything when it is called.
#![tactic(auto)]

ghost use Rattle.std.specs.Prelude.{◌≡◌, ◌≤◌, ◌∷◌, ℕ, false, List, map, Option};
ghost use Rattle.rg_grammar.specs.Grammar.{Token, Tree, OrTree, or_tree, or_depth, SpanTree, IsSpan, IsMaybeSpan, maybe_span, is_signed, windowed, Query, QueryTree, IsQuery, query_depth, tokens_of, query_of, Found, StopsAt, NestsAt, NestsIn};
ghost use Rattle.rg_grammar.specs.Machine.{run, read, stops, nests, at_start};
ghost use Rattle.rg_grammar.specs.Printed.{Means, written, written_span, written_query, over_window, CanWrite, filter_shape};
ghost use Rattle.rg_grammar.specs.Erase.{erase_token, erase_query};

/// What the grammar has is read.
#[tactic(auto, using(crate::proofs::Complete::complete))]
pub fn law_complete()
    // The machine reads every query of the grammar.
    ensures { (deep : ℕ) (t : QueryTree) → IsQuery t → query_depth t ≤ deep → run deep at_start (tokens_of t) ≡ read (query_of t) }
{}

/// Tokens that are found to ask a query are read as that query.
pub fn law_found()
    // A query that some tokens are, and no deeper, is read by the machine.
    ensures { (deep : ℕ) (ts : List Token) (q : Query) → Found deep ts q → run deep at_start ts ≡ read q }
{}

/// What is read is in the grammar.
#[tactic(auto, using(crate::proofs::Sound::sound))]
pub fn law_sound()
    // What the machine reads is a query of the grammar.
    ensures { (deep : ℕ) (ts : List Token) (q : Query) → run deep at_start ts ≡ read q → Found deep ts q }
{}

/// Some tokens ask one query, whatever trees they are taken for, and however deep these may nest.
pub fn law_one_query()
    // Some tokens ask one query.
    ensures { (deep more : ℕ) (ts : List Token) (q other : Query) → Found deep ts q → Found more ts other → q ≡ other }
{}

/// Where a reading stops, the tokens so far begin a query, and with the next token they begin none; where no token is
/// left, they are none.
pub fn law_stops()
    // The machine stops where no query of that depth goes on.
    ensures { (deep : ℕ) (ts rest : List Token) → run deep at_start ts ≡ stops rest → StopsAt deep ts rest }
{}

/// Only there does a reading stop.
pub fn law_stops_only()
    // It stops only there.
    ensures { (deep : ℕ) (ts rest : List Token) → StopsAt deep ts rest → run deep at_start ts ≡ stops rest }
{}

/// Where a reading nests too deep, the tokens so far begin a query within the depth, and with the next token they begin
/// one, but none within it.
pub fn law_nests()
    // It is refused for depth where the tokens nest too deep.
    ensures at_token { (deep : ℕ) (ts : List Token) (t : Token) (more : List Token) → run deep at_start ts ≡ nests (t ∷ more) → NestsAt deep ts t more }
    ensures in_tokens { (deep : ℕ) (ts rest : List Token) → run deep at_start ts ≡ nests rest → NestsIn deep ts rest }
{}

/// Only there does a reading nest too deep.
pub fn law_nests_only()
    // It is refused for depth only there.
    ensures { (deep : ℕ) (ts : List Token) (t : Token) (more : List Token) → NestsAt deep ts t more → run deep at_start ts ≡ nests (t ∷ more) }
{}

/// A condition that is written with the parentheses that it needs means the same again, and nests no deeper than it did.
pub fn law_written()
    // A condition that is written again means the same and nests no deeper.
    ensures means { (t : Tree) → Means t }
    ensures shallow { (o : OrTree) → or_depth (written (or_tree o)).or ≤ or_depth o }
{}

/// A query that is written is one of the grammar, and asks the same but for the spans that it was given. It nests no
/// deeper than a query whose condition is joined alike.
pub fn law_written_query()
    ensures legal { (q : Query) (length delay : Option SpanTree) → CanWrite q → IsMaybeSpan length → IsMaybeSpan delay → IsQuery (written_query q length delay) }

    // A query that is written again asks the same and nests no deeper.
    ensures means { (q : Query) (length delay : Option SpanTree) → CanWrite q → query_of (written_query q length delay) ≡ over_window q (windowed (maybe_span length) (maybe_span delay)) }
    ensures shallow { (q : Query) (tree : QueryTree) (length delay : Option SpanTree) → filter_shape q ≡ filter_shape (query_of tree) → query_depth (written_query q length delay) ≤ query_depth tree }
    ensures can_write { (deep : ℕ) (ts : List Token) (q : Query) → Found deep ts q → CanWrite q }
    ensures found { (deep : ℕ) (ts : List Token) (q other : Query) (length delay : Option SpanTree) → Found deep ts q → CanWrite other → filter_shape other ≡ filter_shape q → IsMaybeSpan length → IsMaybeSpan delay → Found deep (tokens_of (written_query other length delay)) (over_window other (windowed (maybe_span length) (maybe_span delay))) }
    ensures span { (millis : List ℕ) → is_signed millis ≡ false → IsSpan (written_span millis) }
{}

/// Tokens that differ in their places alone are read as queries that do, or refused at the same token.
pub fn law_places()
    // Tokens that differ in their places alone are read alike.
    ensures reads { (deep : ℕ) (ts us : List Token) (q : Query) → map erase_token ts ≡ map erase_token us → run deep at_start ts ≡ read q → (again : Query) × (run deep at_start us ≡ read again) × (erase_query again ≡ erase_query q) }
    ensures stops_too { (deep : ℕ) (ts us rest : List Token) → map erase_token ts ≡ map erase_token us → run deep at_start ts ≡ stops rest → (again : List Token) × (run deep at_start us ≡ stops again) × (map erase_token again ≡ map erase_token rest) }
    ensures nests_too { (deep : ℕ) (ts us rest : List Token) → map erase_token ts ≡ map erase_token us → run deep at_start ts ≡ nests rest → (again : List Token) × (run deep at_start us ≡ nests again) × (map erase_token again ≡ map erase_token rest) }
    ensures found { (deep : ℕ) (ts us : List Token) (q : Query) → map erase_token ts ≡ map erase_token us → Found deep ts q → (again : Query) × Found deep us again × (erase_query again ≡ erase_query q) }
{}

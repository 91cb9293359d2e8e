//! Laws of held frames.
ghost use Rattle.std.specs.Prelude.{◌≡◌, ◌≢◌, ◌<◌, ◌≤◌, ◌+◌, ◌∷◌, ◌++◌, ℕ, List, true, None, Some, length};
ghost use Rattle.of_datapath.specs.Buffers.{Held as AHeld, HeldFrames as AreHeld, forgotten, given_since, held, hold, hold_all, is_id, last_id, most_held, used};

/// An id serves its frame until the frame is used, or until 256 later frames are held; then it serves no more, until the ids have
/// gone round.
pub fn an_id_serves_until_used()
    ensures first { (h : AHeld) (b : AreHeld) → is_id b.next ≡ true → held b.next (hold h b) ≡ Some h }
    ensures kept { (id : ℕ) (hs : List AHeld) (b : AreHeld) → is_id b.next ≡ true → is_id id ≡ true → given_since id b + length hs < most_held →
        held id (hold_all hs b) ≡ held id b }
    ensures once { (id : ℕ) (hs : List AHeld) (b : AreHeld) → is_id b.next ≡ true → is_id id ≡ true → given_since id b + length hs < last_id →
        held id (hold_all hs (used id b)) ≡ None }
    ensures given_up { (id : ℕ) (hs : List AHeld) (b : AreHeld) → is_id b.next ≡ true → is_id id ≡ true → length b.places ≤ most_held →
        most_held ≤ given_since id b + length hs → given_since id b + length hs < last_id → held id (hold_all hs b) ≡ None }
{}

/// Frames that are held one after the other have ids of their own: each that which was next when it was held.
///
/// It serves after all of them were held, if fewer than 256 came later; and no two of them have the same id, unless the ids have gone
/// round between them.
pub fn frames_have_ids_of_their_own()
    ensures next { (hs : List AHeld) (b : AreHeld) → is_id b.next ≡ true → is_id (hold_all hs b).next ≡ true }
    ensures held { (first rest : List AHeld) (h : AHeld) (b : AreHeld) → is_id b.next ≡ true → length rest < most_held →
        held (hold_all first b).next (hold_all (first ++ h ∷ rest) b) ≡ Some h }
    ensures distinct { (first more : List AHeld) (h : AHeld) (b : AreHeld) → is_id b.next ≡ true → length more + 1 < last_id →
        (hold_all (first ++ h ∷ more) b).next ≢ (hold_all first b).next }
{}

/// At most 256 frames are held.
pub fn at_most_256_are_held()
    ensures { (h : AHeld) (b : AreHeld) → length (hold h b).places ≤ most_held }
{}

/// Frames that are forgotten are served no more, and their ids are not given again before the ids have gone round.
pub fn forgotten_frames_serve_never()
    ensures frames { (id : ℕ) (b : AreHeld) → held id (forgotten b) ≡ None }
    ensures next { (b : AreHeld) → (forgotten b).next ≡ b.next }
{}

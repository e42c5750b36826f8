ghost use Rattle.std.specs.Prelude.{◌≡◌, ◌+◌, ◌<◌, ℕ, List, length, slice_index};
ghost use Rattle.morphology_definitions.specs.InternalSandhi.{IsJoined};

/// A front and an ending have one joined word at most.
pub fn joined_once()
    ensures { (front ending left right : List ℕ)
        → IsJoined front ending left
        → IsJoined front ending right
        → left ≡ right }
{}

/// The joined word is as long as the front and the ending together, and begins with the front.
pub fn joined_begins_with_front()
    ensures length { (front ending result : List ℕ)
        → IsJoined front ending result
        → length result ≡ length front + length ending }
    ensures front { (front ending result : List ℕ)
        → IsJoined front ending result
        → (i : ℕ)
        → i < length front
        → slice_index result i ≡ slice_index front i }
{}

/// A front and an ending have a joined word, so it is a function of both.
pub fn joined_exists()
    ensures { (front ending : List ℕ) → (result : List ℕ) × IsJoined front ending result }
{}

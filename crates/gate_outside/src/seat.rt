ghost use Rattle.std.specs.Prelude.{ℕ, List};

/// A viewer's place in a session (this project's own).
pub trait Seat: Drop {
    /// The place stands where its viewer was given this text and nothing else.
    ghost fresh: { Self → List ℕ → Type 0 };
}

//! Telling of a long work, step by step.

ghost use Rattle.std.specs.Prelude.{◌≡◌, ℕ, false};

/// One who may tell of each step of a long work when it begins, by writing to a `T`.
pub trait Watch<T> {
    /// It told of the step with this number and this count, from what was written before to what is
    /// written then.
    ghost tells: { Self → T → T → ℕ → ℕ → Type 0 };

    /// Whether anything is told.
    fn watches(&self) -> bool
        ensures { result ≡ false → (told : T) → (step : ℕ) → (count : ℕ)
            → tells self.now told told step count };

    /// Tells that the step with this number begins, with this `count` of what it goes through.
    fn begin(&self, told: &mut T, step: u32, count: u64)
        ensures { tells self.now told.old told.new step count };
}

/// One who tells nothing.
pub struct NoWatch;

impl<T> Watch<T> for NoWatch {
    ghost tells = { λ _ old new _ _. new ≡ old };

    fn watches(&self) -> bool {
        false
    }

    fn begin(&self, _told: &mut T, _step: u32, _count: u64) {}
}

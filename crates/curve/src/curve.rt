// What every arrival curve answers.
ghost use Rattle.std.specs.Prelude.{◌≡◌, ℕ};
ghost use Rattle.model.specs.Curve.{CurveLaws};

// A line with a window is what is asked: a type for both would be made at each call and taken apart in it.
pub trait Curve {
    ghost lines: { Self → ℕ };

    ghost most: { Self → ℕ → ℕ → ℕ };

    // How many lines it has.
    fn lines(&self) -> u32
        ensures { result ≡ lines self.now };

    // The most events that the line can raise in any window of so many ticks.
    fn most(&self, line: u32, window: u64) -> u64
        ensures { result ≡ most self.now line window };

    ghost lawful: { (c : Self) → CurveLaws (lines c) (most c) };
}

// What every monitor answers: how many lines it has, when a line is ready, and how many permits a window can hold.
ghost use Rattle.std.specs.Prelude.{◌≡◌, ℕ, Bool, true, ⊤};
ghost use Rattle.model.specs.Monitor.{MonitorLaws, Asked, meant};

// A line with an instant, or with a window, is what is asked: a type for both would be made at each call and taken apart in it.
pub trait Monitor {
    ghost lines: { Self → ℕ };

    ghost ready: { Self → ℕ → ℕ → Bool };

    ghost ceiling: { Self → ℕ → ℕ → ℕ };

    // the permits that a line can still get at instants from the first up to, not including, the second
    ghost left: { Self → ℕ → ℕ → ℕ → ℕ };

    // what a monitor becomes by one permit of a line at an instant: the monitor before, the line, the instant, the monitor after;
    // a kind that says nothing of it leaves it open
    ghost spent: { Self → ℕ → ℕ → Self → Type 0 } = { λ _ _ _ _. ⊤ };

    fn lines(&self) -> u32
        ensures { result ≡ lines self.now };

    fn ready(&self, line: u32, at: u32) -> bool
        ensures { result ≡ ready self.now line at };

    fn ceiling(&self, line: u32, window: u64) -> u64
        ensures { result ≡ ceiling self.now line window };

    // Answers whether the line is ready; a yes is a permit.
    fn ask(&mut self, line: u32, at: u32) -> bool
        ensures asked { Asked (meant lines ready ceiling left) self.old line at result self.new }
        ensures once { result ≡ true → spent self.old line at self.new };

    ghost lawful: { (m : Self) → MonitorLaws (lines m) (ready m) (ceiling m) (left m) };
}

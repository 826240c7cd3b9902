// Setting a budget, and what it answers as a monitor.
ghost use Rattle.std.specs.Prelude.{◌≡◌, ◌/◌, true, MatchResult, if◌then◌else◌};
ghost use Rattle.model.specs.Calls.{Replaced};
ghost use Rattle.model.specs.Monitor.{Asked};
ghost use Rattle.monitor.specs.Meanings.{meaning};
ghost use Rattle.budget.specs.Budget.{used_in, budget_ready, budget_ceiling, budget_left, budget_after, budget_fault, budget_new};
ghost use Rattle.budget.specs.View.{budget_state};
ghost use Rattle.budget.specs.Budgets.{budget_laws};

use super::Budget;
use model::Refusal;
use monitor::Monitor;
use windows::{END, LONGEST, cut, in_range, lengths};

impl Budget {
    pub fn new() -> Budget
        ensures { budget_state result ≡ budget_new 1 1000000000 }
    {
        Budget::of(1, LONGEST).unwrap()
    }

    // A new one that gives so many permits per period, if both are in range.
    pub fn of(permits: u32, period: u32) -> Result<Self, Refusal>
        ensures { MatchResult result
            (λ m. budget_state m ≡ budget_new permits period) (λ e. budget_fault permits period ≡ Some e) }
    {
        if !in_range(1, 64, permits) {
            return Err(Refusal::Setting(0));
        }
        if !in_range(1, LONGEST, period) {
            return Err(Refusal::Setting(1));
        }
        Ok(Budget {
            permits: permits as u8,
            period,
            latest: 0,
            used: 0,
        })
    }

    // Replaces the permits per period and the period, and forgets the permits given.
    // Every kind has a `set` over its own `of`: what they share is this one step.
    pub fn set(&mut self, permits: u32, period: u32) -> Result<(), Refusal>
        ensures { Replaced budget_state (budget_fault permits period) (budget_new permits period) self.old result self.new }
    {
        *self = Self::of(permits, period)?;
        Ok(())
    }

    // How many permits fell in the period of an instant that is not before the latest permit.
    fn used_at(&self, at: u32) -> u8
        ensures { result ≡ used_in (budget_state self.now) (at / self.now.period) }
    {
        if at / self.period == self.latest / self.period {
            self.used
        } else {
            0
        }
    }
}

// Each kind of one line says so itself. One impl by a trait of rules would ask nearly as many members of each kind (the rule, the
// ceiling, what is left, what a permit makes of it, their laws) to spare it a number and three tests; a wrapper would change its
// type.
impl Monitor for Budget {
    ghost lines = { λ m. 1 };

    ghost ready = { λ m. budget_ready (budget_state m) };

    ghost ceiling = { λ m. budget_ceiling (budget_state m) };

    ghost left = { λ m. budget_left (budget_state m) };

    ghost spent = { λ m k t n. budget_state n ≡ budget_after (budget_state m) t };

    ghost lawful = { λ m. budget_laws (budget_state m) (record { few = m.few; long = m.long; within = m.within }) };

    fn lines(&self) -> u32 {
        1
    }

    fn ready(&self, line: u32, at: u32) -> bool {
        line == 0 && at <= END && at >= self.latest && self.used_at(at) < self.permits
    }

    fn ceiling(&self, line: u32, window: u64) -> u64 {
        if line != 0 || window == 0 {
            return 0;
        }
        let periods = lengths(cut(window) - 1, self.period) + 1;
        u64::from(self.permits) * periods
    }

    fn ask(&mut self, line: u32, at: u32) -> bool
        ensures asked { Asked (meaning ⟦<Budget as Monitor>⟧) self.old line at result self.new }
        ensures after { budget_state self.new
            ≡ (if result then budget_after (budget_state self.old) at else budget_state self.old) }
        ensures once { result ≡ true → budget_state self.new ≡ budget_after (budget_state self.old) at }
    {
        if !self.ready(line, at) {
            return false;
        }
        self.used = self.used_at(at) + 1;
        self.latest = at;
        true
    }
}

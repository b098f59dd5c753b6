//! A limiter that answers by a list, for tests.

ghost use Rattle.std.specs.Prelude.{◌≡◌, None};
ghost use Rattle.gc_owner.specs.Limiters.{fresh_limits, next_answer, later_answers};

use crate::limiter::ResourceLimiter;
use std::marker::Model;

/// A limiter that gives its answers in order, and true after the last. It tells no limit.
#[derive(Drop)]
pub struct Scripted {
    answers: Vec<bool>,
    /// How many answers were given.
    given: usize,
    refusals: u64,
    last_refused: Option<(u32, u32)>,
}

impl Model for Scripted {
    ghost use Rattle.std.specs.Prelude.{None, drop};
    ghost use Rattle.gc_owner.specs.Limiters.{ScriptedView};

    ghost Value = { ScriptedView };

    ghost view = { λ s. record {
      answers = drop s.given s.answers.items;
      limits = record { limit = None; refusals = s.refusals; last_refused = s.last_refused };
    } };
}

impl Scripted {
    /// A limiter with these answers.
    pub fn new(answers: Vec<bool>) -> Scripted
        ensures { result ≡ record { answers = answers.items; limits = fresh_limits None } }
    {
        Scripted {
            answers,
            given: 0,
            refusals: 0,
            last_refused: None,
        }
    }

    /// How many asks were refused, counted up to the greatest u64.
    pub fn refusals(&self) -> u64
        ensures { result ≡ self.now.limits.refusals }
    {
        self.refusals
    }

    /// The last ask that was refused, as pages before and after.
    pub fn last_refused(&self) -> Option<(u32, u32)>
        ensures { result ≡ self.now.limits.last_refused }
    {
        self.last_refused
    }

    /// The next answer; true after the last.
    fn next_answer(&mut self) -> bool
        ensures answer { result ≡ next_answer self.old.answers }
        ensures rest { self.new ≡ record self.old { answers = later_answers self.old.answers } }
    {
        match self.answers.get(self.given) {
            Some(answer) => {
                let answer = *answer;
                self.given += 1;
                answer
            }
            None => true,
        }
    }
}

impl ResourceLimiter for Scripted {
    ghost use Rattle.std.specs.Prelude.{◌≡◌, ◌↔◌, ◌≤◌, IsTrue, IfSome};
    ghost use Rattle.std.specs.Bool.{OnTrue, OnFalse};
    ghost use Rattle.gc_owner.specs.Limiters.{Refuses, next_answer, later_answers};

    ghost limits = { λ s. s.limits };

    fn growing(&mut self, from: u32, to: u32) -> bool
        ensures granted { OnTrue result (self.new.limits ≡ self.old.limits) }
        ensures refused { OnFalse result (Refuses self.old.limits self.new.limits from to) }
        ensures by_limit { IfSome self.old.limits.limit (λ most. IsTrue result ↔ (to ≤ most)) }
        ensures answer { result ≡ next_answer self.old.answers }
        ensures rest { self.new.answers ≡ later_answers self.old.answers }
    {
        let granted = self.next_answer();
        if !granted {
            self.refusals = self.refusals.saturating_add(1);
            self.last_refused = Some((from, to));
        }
        granted
    }
}

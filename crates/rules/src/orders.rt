ghost use Rattle.std.specs.Prelude.{◌≡◌, ◌-◌, ◌<◌, length, Decides, MatchOption, IfOk};
ghost use Rattle.rules.specs.Reach.{leads_to};
ghost use Rattle.rules.specs.Words.{Barred, Free, LowestBarred};
ghost use Rattle.rules.specs.Keys.{numbers, rank_of, leader_of, key_of, InOrder};

use crate::reach::Reach;
use std::alloc::{AllocError, Global};
use terms::RuleNo;

impl Reach<'_> {
    // The lowest exclusive rule that is in a ring.
    pub(crate) fn ringed_exclusive(&self) -> Option<RuleNo>
        ensures { MatchOption result (Free self.now.rules.now) (λ no. LowestBarred self.now.rules.now no) }
    {
        let i = (0..self.rules.len()).find(|i| self.is_barred(*i))?;
        Some(RuleNo(i as u8 + 1))
    }

    // Whether there is such a rule, and it is exclusive and in a ring.
    fn is_barred(&self, i: usize) -> bool
        ensures { Decides result (Barred self.now.rules.now i) }
    {
        match self.rules.get(i) {
            Some(rule) => rule.how.is_exclusive() && self.leads(i, i),
            None => false,
        }
    }

    // The rules in a working order.
    pub(crate) fn working_order(&self, heap: Global) -> Result<Vec<RuleNo>, AllocError>
        ensures { IfOk result (λ order. InOrder (leads_to self.now.rules.now) (length self.now.rules.now) order.items) }
    {
        let mut order = self.numbers(heap)?;
        order.sort_unstable_by_key(|no| self.key(*no));
        Ok(order)
    }

    // The numbers of the rules.
    fn numbers(&self, heap: Global) -> Result<Vec<RuleNo>, AllocError>
        ensures { IfOk result (λ v. v.items ≡ numbers (length self.now.rules.now)) }
    {
        (1..self.rules.len() as u8 + 1).map(RuleNo).collect(heap)
    }

    // By what rules are put in order: by rank, then by the lowest rule of the group, then by number.
    fn key(&self, no: RuleNo) -> (usize, usize, usize)
        ensures { result ≡ key_of (leads_to self.now.rules.now) (length self.now.rules.now) (no.0 - 1) }
    {
        let i = index(no);
        (self.rank(i), self.leader(i), i)
    }

    // How many rules are `i` or lead to `i`.
    fn rank(&self, i: usize) -> usize
        ensures { result ≡ rank_of (leads_to self.now.rules.now) (length self.now.rules.now) i }
    {
        (0..self.rules.len())
            .filter(|m| *m == i || self.leads(*m, i))
            .count()
    }

    // The lowest rule of the group of `i`.
    fn leader(&self, i: usize) -> usize
        ensures { result ≡ leader_of (leads_to self.now.rules.now) i }
    {
        (0..i)
            .find(|m| self.leads(*m, i) && self.leads(i, *m))
            .unwrap_or(i)
    }
}

// The index of the rule that has a number, which counts from 1.
pub(crate) fn index(no: RuleNo) -> usize
    ensures { result ≡ no.0 - 1 }
{
    no.0.saturating_sub(1) as usize
}

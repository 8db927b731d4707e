ghost use Rattle.std.specs.Prelude.{◌≡◌, ℕ, ◌<◌, false, ◌||◌, ◌==◌};
ghost use Rattle.rules.specs.RuleSets.{holds};

// A set of rules of one table, by their indexes.
#[derive(Clone, Copy)]
pub(crate) struct RuleSet(u64);

impl RuleSet {
    pub(crate) fn none() -> RuleSet
        ensures { (j : ℕ) → holds result j ≡ false }
    {
        RuleSet(0)
    }

    // Whether the rule is in the set, which has no rule from 64 on.
    pub(crate) fn has(self, i: usize) -> bool
        ensures { result ≡ holds self i }
    {
        i < 64 && (self.0 >> i) & 1 == 1
    }

    pub(crate) fn with(self, i: usize) -> RuleSet
        requires { i < 64 }
        ensures { (j : ℕ) → holds result j ≡ (holds self j || i == j) }
    {
        RuleSet(self.0 | (1 << i))
    }

    pub(crate) fn join(self, other: RuleSet) -> RuleSet
        ensures { (j : ℕ) → holds result j ≡ (holds self j || holds other j) }
    {
        RuleSet(self.0 | other.0)
    }
}

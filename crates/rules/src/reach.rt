ghost use Rattle.std.specs.Prelude.{◌≡◌, ℕ, ◌<◌, ◌≤◌, ◌&&◌, ◌||◌, length, Decides};
ghost use Rattle.rules.specs.Keys.{one_group};
ghost use Rattle.rules.specs.Reach.{leads_to};
ghost use Rattle.rules.specs.RuleSets.{holds, marked};
ghost use Rattle.rules.specs.Words.{Reads, ReadBy, read_by};

use crate::rule::{MOST_RULES, Rule};
use crate::rule_list::RuleList;
use crate::rule_set::RuleSet;
use terms::LabelNo;

// What leads to what in a table's rules: the row of a rule has the rules that it leads to. A rule leads to another if some chain of rules
// begins with it and the other reads the chain's last label.
// The rows are an array, which takes no memory: want of memory must not hide a ring.
#[derive(Drop)]
pub(crate) struct Reach<'a> {
    pub(crate) rules: &'a [Rule],
    rows: [RuleSet; MOST_RULES],
    ghost few: { length rules.now ≤ 48 },
    ghost tells: { (i j : ℕ) → marked rows i j ≡ leads_to rules.now i j },
}

impl<'a> Reach<'a> {
    // Of the rules of a list.
    pub(crate) fn of(list: &'a RuleList) -> Reach<'a>
        ensures { result.rules.now ≡ list.now.rules.items }
    {
        let rules = list.rules.as_slice();
        let mut rows = first_steps(list);
        // A `for` over the rules and no `fold`, whose closure would have to say again what `through` asks and gives.
        for k in 0..rules.len() {
            // (named first: the check does not take a call's result straight over the array that was passed to it)
            let wider = through(rows, k);
            rows = wider;
        }
        Reach { rules, rows }
    }

    // Whether the rule `i` leads to the rule `j`; none leads to or from an index that no rule has.
    pub(crate) fn leads(&self, i: usize, j: usize) -> bool
        ensures { result ≡ leads_to self.now.rules.now i j }
    {
        i < MOST_RULES && self.rows[i].has(j)
    }

    // Whether two rules lead to each other or are the same.
    pub(crate) fn one_group(&self, i: usize, j: usize) -> bool
        ensures { result ≡ one_group (leads_to self.now.rules.now) i j }
    {
        i == j || (self.leads(i, j) && self.leads(j, i))
    }
}

// For each rule the rules that read its label.
fn first_steps(list: &RuleList) -> [RuleSet; MOST_RULES]
    ensures { (i j : ℕ) → marked result i j ≡ read_by list.now.rules.items i j }
{
    let mut rows = [RuleSet::none(); MOST_RULES];
    // An index loop: `array::from_fn` would ask for each of the 48 rows, and most tables have few rules.
    for i in 0..list.rules.len() {
        rows[i] = readers(list, i);
    }
    rows
}

// The rules that read the label of the rule `i`, if there is such a rule.
fn readers(list: &RuleList, i: usize) -> RuleSet
    ensures { (j : ℕ) → Decides (holds result j) (ReadBy list.now.rules.items i j) }
{
    let mut set = RuleSet::none();
    if let Some(rule) = list.rules.get(i) {
        for (j, other) in list.rules.iter().enumerate() {
            if reads(other, rule.label) {
                set = set.with(j);
            }
        }
    }
    set
}

// Whether the rule reads the label.
fn reads(rule: &Rule, label: LabelNo) -> bool
    ensures { Decides result (Reads rule.now label) }
{
    label == rule.first || label == rule.second
}

// What is reached with the rule `k` as one more stop on the way.
fn through(mut rows: [RuleSet; MOST_RULES], k: usize) -> [RuleSet; MOST_RULES]
    requires { k < 48 }
    ensures { (i j : ℕ) → marked result i j ≡ (marked rows i j || (marked rows i k && marked rows k j)) }
{
    let by = rows[k];
    // A `for` over the rows where they lie: `map` of the array would move each into an `Option` and out of it, once a rule.
    for row in rows.iter_mut() {
        *row = widened(*row, k, by);
    }
    rows
}

// A row and, if it has the rule `k`, that rule's row.
fn widened(row: RuleSet, k: usize, by: RuleSet) -> RuleSet
    ensures { (j : ℕ) → holds result j ≡ (holds row j || (holds row k && holds by j)) }
{
    if row.has(k) { row.join(by) } else { row }
}

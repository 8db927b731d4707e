ghost use Rattle.std.specs.Prelude.{◌≡◌, ◌-◌, ◌<◌, length, MatchOption, ◌≢◌};
ghost use Rattle.rules.specs.Tables.{names_in, rules_in, order_in, groups_in, LabelIn, name_of, RuleIn, rule_of, Closed};
ghost use Rattle.rules.specs.Words.{WorkingOrder, Grouping};

use crate::group::Group;
use crate::names::find_name;
use crate::rule::Rule;
use crate::table::Table;
use terms::{LabelNo, RuleNo};

impl Table {
    // How many rules there are.
    pub fn rule_count(&self) -> usize
        ensures { result ≡ length (rules_in self.now) }
    {
        self.list.rules.len()
    }

    // How many labels there are.
    pub fn label_count(&self) -> usize
        ensures { result ≡ length (names_in self.now) }
    {
        self.list.names.len()
    }

    // How many groups there are.
    pub fn group_count(&self) -> usize
        ensures { result ≡ length (groups_in self.now) }
    {
        self.groups.len()
    }

    // A label's name, if there is such a label.
    pub fn label_name(&self, label: LabelNo) -> Option<&str>
        ensures { MatchOption result (LabelIn self.now label → ⊥) (λ name. LabelIn self.now label × (name.now ≡ name_of self.now label)) }
    {
        self.list
            .names
            .get(label.0 as usize)
            .map(|name| name.as_str())
    }

    // The label that has the name, if one has.
    pub fn label_no(&self, name: &[u8]) -> Option<LabelNo>
        ensures { MatchOption result ((label : LabelNo) → LabelIn self.now label → name_of self.now label ≢ name.now) (λ label. LabelIn self.now label × (name_of self.now label ≡ name.now)) }
    {
        let i = find_name(&self.list.names, name)?;
        Some(LabelNo(i as u8))
    }

    // The rule that has the number, if one has.
    pub fn rule(&self, rule: RuleNo) -> Option<Rule>
        ensures { MatchOption result (RuleIn self.now rule → ⊥) (λ x. RuleIn self.now rule × (x ≡ rule_of self.now rule)) }
    {
        let i = (rule.0 as usize).checked_sub(1)?;
        self.list.rules.get(i).copied()
    }

    // The rules, by number.
    pub fn rules(&self) -> &[Rule]
        ensures { result.now ≡ rules_in self.now }
    {
        self.list.rules.as_slice()
    }

    // The rules' numbers in a working order.
    pub fn order(&self) -> &[RuleNo]
        ensures value { result.now ≡ order_in self.now }
        ensures works { WorkingOrder (rules_in self.now) result.now }
    {
        self.order.as_slice()
    }

    // The groups of the working order.
    pub fn groups(&self) -> &[Group]
        ensures value { result.now ≡ groups_in self.now }
        ensures parts { Grouping (rules_in self.now) (order_in self.now) result.now }
        ensures closed { Closed self.now }
    {
        self.groups.as_slice()
    }
}

ghost use Rattle.std.specs.Prelude.{◌≡◌, ◌≤◌, true, length};
ghost use Rattle.rules.specs.Texts.{texts};
ghost use Rattle.rules.specs.Written.{names_of, spell_rules, all_labels, all_in_range};

use crate::rule::Rule;

// Rules by number, and the names of their labels in the order of first appearance: what a draft gathers and a table has.
#[derive(Drop)]
pub(crate) struct RuleList {
    pub(crate) names: Vec<String>,
    pub(crate) rules: Vec<Rule>,
    ghost few: { length rules.items ≤ 48 },
    ghost fewnames: { length (texts names.items) ≤ 32 },
    ghost spelt: { all_labels (texts names.items) ≡ true },
    ghost within: { all_in_range (length (texts names.items)) rules.items ≡ true },
    ghost appear: { names_of (spell_rules (texts names.items) rules.items) ≡ texts names.items },
}

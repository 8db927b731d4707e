ghost use Rattle.std.specs.Prelude.{◌≡◌, ◌+◌, ◌<◌, ◌≤◌, ◌||◌, [], length, None, Some, MatchResult, if◌then◌else◌};
ghost use Rattle.std.specs.Str.{bytes_eq};
ghost use Rattle.rules.specs.declared.draft.AddFault.TheVariants.{Refused, OutOfMemory};
ghost use Rattle.rules.specs.Drafts.{drafted, listed, said_by, add_refusal, Added, Pushed, Entered, Wrote};
ghost use Rattle.rules.specs.Texts.{texts};
ghost use Rattle.rules.specs.Written.{enter_rule, known, spelt};

use crate::draft::{AddFault, Draft};
use crate::label::is_label;
use crate::names::find_name;
use crate::rule::{MOST_RULES, Rule, RuleWords};
use crate::rule_list::RuleList;
use std::alloc::{AllocError, Global};
use terms::{LabelNo, Refusal, RuleNo};

const MOST_LABELS: usize = 32;

impl Draft {
    // No rules yet.
    pub fn new(heap: Global) -> Draft
        ensures { drafted result ≡ [] }
    {
        Draft {
            heap,
            list: RuleList::new(heap),
        }
    }

    // Adds a rule by the names of its labels, and tells its number. A refusal leaves the draft as it was.
    pub fn add(&mut self, rule: RuleWords<'_>) -> Result<RuleNo, AddFault>
        ensures { Added (drafted self.old) (said_by rule.entry) (drafted self.new) result }
    {
        self.list.check(rule)?;
        let number = self.list.push(self.heap, rule)?;
        Ok(number)
    }
}

impl From<Refusal> for AddFault {
    ghost from_gives = { λ why r. r ≡ Refused why };

    fn from(why: Refusal) -> AddFault {
        AddFault::Refused(why)
    }
}

impl From<AllocError> for AddFault {
    ghost from_gives = { λ _ r. r ≡ OutOfMemory };

    fn from(_e: AllocError) -> AddFault {
        AddFault::OutOfMemory
    }
}

impl RuleList {
    fn new(heap: Global) -> RuleList
        ensures { listed result ≡ [] }
    {
        RuleList {
            names: Vec::new(heap),
            rules: Vec::new(heap),
        }
    }

    // Whether one more rule is taken: its names are labels, and neither rules nor labels become too many.
    fn check(&self, rule: RuleWords<'_>) -> Result<(), Refusal>
        ensures { MatchResult result (λ _. add_refusal (listed self.now) (said_by rule.entry) ≡ None) (λ why. add_refusal (listed self.now) (said_by rule.entry) ≡ Some why) }
    {
        if !is_spelt(rule) {
            return Err(Refusal::Misspelt);
        }
        if self.rules.len() >= MOST_RULES {
            return Err(Refusal::Overfull);
        }
        if self.names.len() + new_names(&self.names, rule) > MOST_LABELS {
            return Err(Refusal::Overfull);
        }
        Ok(())
    }

    // One rule more, that is taken. Where there is no memory for it, the list is as it was.
    fn push(&mut self, heap: Global, rule: RuleWords<'_>) -> Result<RuleNo, AllocError>
        requires { add_refusal (listed self.old) (said_by rule) ≡ None }
        ensures { Pushed (listed self.old) (said_by rule.entry) (listed self.new) result }
    {
        let known = self.names.len();
        let written = write_rule(heap, &mut self.names, &mut self.rules, rule);
        if written.is_err() {
            self.names.truncate(known);
        }
        written
    }
}

// Whether the three names of a rule are labels.
fn is_spelt(rule: RuleWords<'_>) -> bool
    ensures { result ≡ spelt (said_by rule.entry) }
{
    is_label(rule.label.as_bytes())
        && is_label(rule.first.as_bytes())
        && is_label(rule.second.as_bytes())
}

// How many names a rule brings: its names that are not there, each counted once. (Names go alone from here on, since while a rule is written names
// and rules are no list of rules yet.)
fn new_names(names: &[String], rule: RuleWords<'_>) -> usize
    ensures brings { length (enter_rule (texts names.now) (said_by rule.entry)) ≡ length (texts names.now) + result }
    ensures few { result ≤ 3 }
{
    brings_one(names, rule.label, false)
        + brings_one(names, rule.first, rule.label == rule.first)
        + brings_one(
            names,
            rule.second,
            rule.first == rule.second || rule.label == rule.second,
        )
}

// One if the text is a new name, nought if it is there or stood before it in its rule.
fn brings_one(names: &[String], text: &str, before: bool) -> usize
    ensures { result ≡ (if before || known (texts names.now) text.now then 0 else 1) }
{
    if before || find_name(names, text.as_bytes()).is_some() {
        0
    } else {
        1
    }
}

// One rule more, with the names that it brings. Where there is no memory for it, names may be left behind.
fn write_rule(
    heap: Global,
    names: &mut Vec<String>,
    rules: &mut Vec<Rule>,
    rule: RuleWords<'_>,
) -> Result<RuleNo, AllocError>
    requires names { length (texts names.old.items) ≤ 32 }
    requires rules { length rules.old.items < 48 }
    ensures { Wrote names.old.items rules.old.items (said_by rule.entry) names.new.items rules.new.items result }
{
    let count = rules.len();
    let label = enter_name(heap, names, rule.label)?;
    let first = enter_name(heap, names, rule.first)?;
    let second = enter_name(heap, names, rule.second)?;
    rules.push(Rule {
        label,
        first,
        how: rule.how,
        second,
    })?;
    Ok(RuleNo(count as u8 + 1))
}

// The number of a name, which is added where it is not there.
fn enter_name(heap: Global, names: &mut Vec<String>, text: &str) -> Result<LabelNo, AllocError>
    requires { length (texts names.old.items) < 256 }
    ensures { Entered names.old.items text.now names.new.items result }
{
    if let Some(i) = find_name(names, text.as_bytes()) {
        return Ok(LabelNo(i as u8));
    }
    let count = names.len();
    names.push(String::from_str(heap, text)?)?;
    Ok(LabelNo(count as u8))
}

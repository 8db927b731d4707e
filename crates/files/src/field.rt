ghost use Rattle.std.specs.Prelude.{◌≡◌, Some, is_some, IfOk};
ghost use Rattle.std.specs.Result.{is_ok, IfErr, result_err};
ghost use Rattle.rules.specs.Labels.{is_label};
ghost use Rattle.rules.specs.Relations.{relation_named};
ghost use Rattle.files.specs.Fields.{field_for, fault_of, fault_in};

use crate::columns::RuleColumn;
use crate::fault::{FieldFault, FieldFlaw};
use crate::parts::Part;
use rules::{Relation, read_label};
use terms::Worded;

// A field as the part of the file that it is, by what it is to say.
#[derive(Clone, Copy)]
pub enum Field<'a> {
    Label(Part<'a>),
    How(Part<'a>),
    Act(Part<'a>),
    When(Part<'a>),
}

impl<'a> Part<'a> {
    // The part as a field that has a flaw.
    fn fault(self, flaw: FieldFlaw) -> FieldFault
        ensures { result ≡ fault_of flaw self.entry }
    {
        FieldFault {
            flaw,
            line: self.line,
            column: self.column,
        }
    }

    // The label that the part is.
    pub fn label(self) -> Result<&'a str, FieldFault>
        ensures accepts { is_ok result ≡ is_label self.entry.bytes.now }
        ensures text { IfOk result (λ text. text.now ≡ self.entry.bytes.now) }
        ensures fault { IfErr result (λ fault. fault ≡ fault_of FieldFlaw.Misspelt self.entry) }
    {
        read_label(self.bytes).ok_or(self.fault(FieldFlaw::Misspelt))
    }

    // The relation whose word the part is.
    pub fn relation(self) -> Result<Relation, FieldFault>
        ensures accepts { is_ok result ≡ is_some (relation_named self.entry.bytes.now) }
        ensures relation { IfOk result (λ how. relation_named self.entry.bytes.now ≡ Some how) }
        ensures fault { IfErr result (λ fault. fault ≡ fault_of FieldFlaw.Unrelated self.entry) }
    {
        Relation::from_word(self.bytes).ok_or(self.fault(FieldFlaw::Unrelated))
    }
}

impl<'a> Field<'a> {
    // What a part of the file is to say under a column.
    pub(crate) fn under(column: RuleColumn, part: Part<'a>) -> Field<'a>
        ensures { result ≡ field_for column part.entry }
    {
        match column {
            RuleColumn::How => Field::How(part),
            _ => Field::Label(part),
        }
    }

    // What is wrong with the field in a rule file, which has labels and relation words alone.
    pub(crate) fn check_in_rule(self) -> Result<(), FieldFault>
        ensures { result_err result ≡ fault_in self.entry }
    {
        match self {
            Field::Label(part) => part.label().map(|_| ()),
            Field::How(part) => part.relation().map(|_| ()),
            Field::Act(_) | Field::When(_) => Ok(()),
        }
    }
}

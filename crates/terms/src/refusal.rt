ghost use Rattle.std.specs.Prelude.{◌≡◌, Some};
ghost use Rattle.terms.specs.Refusals.{number_of, word_of};

use std::error::Error;
use std::fmt;

// Every refusal that a call of the library can give. Programs print the number; documents use the word.
#[derive(Clone, Copy, PartialEq, Eq, Debug)]
pub enum Refusal {
    // the names line is absent, wrong or without its line end
    Headless = 1,
    // a line has the wrong number of fields
    Ragged = 2,
    // a field is no label
    Misspelt = 3,
    // a field is none of the eleven relation words
    Unrelated = 4,
    // too many rules, labels or bytes
    Overfull = 5,
    // an exclusive rule is in a ring
    Ringed = 6,
    // a later line lacks its line end
    Unended = 7,
    // an act is neither note nor strike
    NoAct = 8,
    // a moment is out of range or unreadable
    Undated = 9,
    // a label is not in the table
    Stranger = 10,
    // the mark stands already
    Noted = 11,
    // the mark that is struck does not stand
    NotStanding = 12,
    // the log has no slot for an act
    LogFull = 13,
    // the pool has fewer labels than the table, or the tray is smaller than the pool
    Narrow = 14,
    // more standing moments than the row or the pool takes
    Crowded = 15,
    // no slot for a new thing
    Full = 16,
    // the reading is not settled
    Unsettled = 17,
    // a start after its end
    Backwards = 18,
    // the text is longer than the buffer
    PageShort = 19,
    // a period beyond the labels or places of a pool, or one that ends before it starts
    OffThePool = 20,
    // a grid with labels or places out of range, or with too few words
    BadMeasure = 21,
}

impl Refusal {
    // The number that formats and programs use. No two refusals share one. (A method: `u8::from` would not say at the call which number it is.)
    pub fn number(self) -> u8
        ensures value { result ≡ number_of self }
        ensures distinct { (other : Refusal) → number_of other ≡ result → other ≡ self }
    {
        self as u8
    }

    // The word that documents use.
    pub fn word(self) -> &'static str
        ensures { result.now ≡ word_of self }
    {
        match self {
            Refusal::Headless => "headless",
            Refusal::Ragged => "ragged",
            Refusal::Misspelt => "misspelt",
            Refusal::Unrelated => "unrelated",
            Refusal::Overfull => "overfull",
            Refusal::Ringed => "ringed",
            Refusal::Unended => "unended",
            Refusal::NoAct => "no act",
            Refusal::Undated => "undated",
            Refusal::Stranger => "stranger",
            Refusal::Noted => "noted",
            Refusal::NotStanding => "not standing",
            Refusal::LogFull => "log full",
            Refusal::Narrow => "narrow",
            Refusal::Crowded => "crowded",
            Refusal::Full => "full",
            Refusal::Unsettled => "unsettled",
            Refusal::Backwards => "backwards",
            Refusal::PageShort => "page short",
            Refusal::OffThePool => "off the pool",
            Refusal::BadMeasure => "bad measure",
        }
    }
}

impl fmt::Display for Refusal {
    ghost output = { λ r. Some (word_of r) };

    fn fmt<W: fmt::Write>(&self, f: &mut fmt::Formatter<W>) -> fmt::Result {
        f.write_str(self.word())
    }
}

impl Error for Refusal {}

ghost use Rattle.std.specs.Prelude.{◌≡◌};
ghost use Rattle.rules.specs.Relations.{exclusive, relation_word, relations};
ghost use Rattle.rules.specs.Laws.Relations.{relations_complete};

use terms::Worded;

// How a rule compares a period of its first label with one of its second. The first eight are inclusive: they make a period of two
// that lie so. The last three are exclusive: they keep a period that no other blocks.
#[derive(Clone, Copy, PartialEq, Eq, Debug)]
pub enum Relation {
    Before,
    Meet,
    During,
    Coincide,
    Start,
    Finish,
    Overlap,
    Slice,
    After,
    Follow,
    Contain,
}

const ALL: [Relation; 11] = [
    Relation::Before,
    Relation::Meet,
    Relation::During,
    Relation::Coincide,
    Relation::Start,
    Relation::Finish,
    Relation::Overlap,
    Relation::Slice,
    Relation::After,
    Relation::Follow,
    Relation::Contain,
];

impl Relation {
    // Whether the relation is one of the three exclusive ones.
    pub fn is_exclusive(self) -> bool
        ensures { result ≡ exclusive self }
    {
        matches!(self, Relation::After | Relation::Follow | Relation::Contain)
    }
}

// The words of a rule file.
impl Worded for Relation {
    ghost spelling = { relation_word };

    ghost every = { relations };

    ghost complete = { relations_complete };

    fn all() -> &'static [Relation] {
        &ALL
    }

    fn word(self) -> &'static str {
        match self {
            Relation::Before => "before",
            Relation::Meet => "meet",
            Relation::During => "during",
            Relation::Coincide => "coincide",
            Relation::Start => "start",
            Relation::Finish => "finish",
            Relation::Overlap => "overlap",
            Relation::Slice => "slice",
            Relation::After => "after",
            Relation::Follow => "follow",
            Relation::Contain => "contain",
        }
    }
}

// How many labels and places a pool has, and what follows from the two numbers: the periods that fit, their bits, and the words for those.
ghost use Rattle.std.specs.Prelude.{◌≡◌, ◌+◌, ◌*◌, ◌^◌, ◌<◌, ◌≤◌, IfOk, IfErr, is_ok};
ghost use Rattle.pools.specs.Cells.{triangular, bit_number, needed, measures, measure_answer};
ghost use Rattle.pools.specs.Sets.{in_bounds};

use crate::period::Period;
use terms::{Place, Refusal};

const MOST_LABELS: usize = 32;

const MOST_PLACES: usize = 256;

pub(crate) const WORD_BITS: usize = 32;

// So many labels and places, within the limits of every pool.
#[derive(Clone, Copy)]
pub(crate) struct Measure {
    pub(crate) labels: usize,
    pub(crate) places: usize,
    ghost few_labels: { labels ≤ 32 },
    ghost few_places: { places ≤ 256 },
}

// Whether a grid of so many labels and places can be laid in so many words; else it is a bad measure.
pub fn check_measure(labels: usize, places: usize, words: usize) -> Result<(), Refusal>
    ensures { result ≡ measure_answer labels places words }
{
    Measure::new(labels, places, words).map(|_| ())
}

impl Measure {
    // Of a grid on which nothing fits.
    pub(crate) const NOTHING: Measure = Measure {
        labels: 0,
        places: 0,
    };

    // The most that there can be.
    pub(crate) const MOST: Measure = Measure {
        labels: MOST_LABELS,
        places: MOST_PLACES,
    };

    // Of a grid that is to be laid in so many words; else it is a bad measure.
    pub(crate) fn new(labels: usize, places: usize, words: usize) -> Result<Measure, Refusal>
        ensures answer { is_ok result ≡ measures labels places words }
        ensures numbers { IfOk result (λ m. (m.labels ≡ labels) × (m.places ≡ places)) }
        ensures refusal { IfErr result (λ e. e ≡ Refusal.BadMeasure) }
    {
        if !(1..=MOST_LABELS).contains(&labels) || !(1..=MOST_PLACES).contains(&places) {
            return Err(Refusal::BadMeasure);
        }
        let measure = Measure { labels, places };
        if measure.words() > words {
            return Err(Refusal::BadMeasure);
        }
        Ok(measure)
    }

    // Whether a period is within the labels and places, and not backwards.
    pub(crate) fn fits(self, p: Period<Place>) -> bool
        ensures { result ≡ in_bounds self.labels self.places p }
    {
        (p.label.0 as usize) < self.labels && (p.end.0 as usize) < self.places && p.start <= p.end
    }

    // How many periods fit.
    pub(crate) fn periods(self) -> usize
        ensures { result ≡ self.labels * triangular self.places }
    {
        self.labels * triangle(self.places)
    }

    // The words that a bit for each of them takes.
    pub(crate) fn words(self) -> usize
        ensures { result ≡ needed self.labels self.places }
    {
        self.periods().div_ceil(WORD_BITS)
    }

    // The number of a period's bit.
    pub(crate) fn bit_of(self, p: Period<Place>) -> usize
        ensures { result ≡ bit_number self.places p }
    {
        let earlier_labels = p.label.0 as usize * triangle(self.places);
        let earlier_ends = triangle(p.end.0 as usize);
        earlier_labels + earlier_ends + p.start.0 as usize
    }
}

// How many periods of one label end before a place: 0, 1, 3, 6 and so on.
fn triangle(n: usize) -> usize
    requires { n < 2 ^ 16 }
    ensures { (result ≡ triangular n) × (result < 2 ^ 32) }
{
    n * (n + 1) / 2
}

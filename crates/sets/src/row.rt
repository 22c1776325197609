// Rows: sets of configurations.
ghost use Rattle.std.specs.Prelude.{◌≡◌, true, false, not, ◌+◌, ◌*◌, ◌<◌, ◌≤◌, ◌^◌, ℕ, length, get_or, ltb};
ghost use Rattle.sets.specs.Bits.{bit};
ghost use Rattle.sets.specs.Rows.{row_bit, word_of, row_of, within, row_join, row_intersect, row_minus, row_is_empty};
ghost use Rattle.sets.specs.Rows.{row_lowest, row_lowest_from, row_count, row_in, with_row};

use std::array::from_fn;

// A set of configurations below 1,024: configuration c is bit c mod 64 of word c div 64. Many rows lie in words one after another, as
// C is handed the column rows (`load`, `meets`, `store`).
#[derive(Clone, Copy)]
pub struct Row {
    pub words: [u64; Row::WORDS],
}

impl Row {
    pub const WORDS: usize = 16;

    pub fn empty() -> Row
        ensures { result.words ≡ row_of 16 (λ c. false) }
    {
        Row {
            words: [0; Row::WORDS],
        }
    }

    // The configurations of n features.
    pub fn full(n: usize) -> Row
        requires { n ≤ 10 }
        ensures { result.words ≡ row_of 16 (within n (λ c. true)) }
    {
        let many: usize = 1 << n;
        Row {
            words: from_fn(|w| below_word(many, w)),
        }
    }

    // The configurations where feature i is on, whatever the number of features.
    pub fn feature(i: usize) -> Row
        requires { i < 10 }
        ensures { result.words ≡ row_of 16 (λ c. bit c i) }
    {
        if i < 6 {
            return Row {
                words: [MASKS[i]; Row::WORDS],
            };
        }
        Row {
            words: from_fn(|w| feature_word(i, w)),
        }
    }

    // The row whose word w is `op` of word w of this row and of the other.
    fn zip_words<F: Fn(u64, u64) -> u64>(self, other: Row, op: F) -> Row
        requires { F.IsAlwaysCallable op }
        ensures { (w : ℕ) → w < 16 → F.post op (get_or self.words w 0) (get_or other.words w 0) (get_or result.words w 0) }
    {
        Row {
            words: from_fn(|w| op(self.words[w], other.words[w])),
        }
    }

    // The configurations that either row has.
    pub fn join(self, other: Row) -> Row
        ensures { result.words ≡ row_join 16 self.words other.words }
    {
        self.zip_words(other, |a, b| a | b)
    }

    // The configurations that both rows have.
    pub fn intersect(self, other: Row) -> Row
        ensures { result.words ≡ row_intersect 16 self.words other.words }
    {
        self.zip_words(other, |a, b| a & b)
    }

    // The configurations of this row that the other lacks.
    pub fn minus(self, other: Row) -> Row
        ensures { result.words ≡ row_minus 16 self.words other.words }
    {
        self.zip_words(other, |a, b| a ^ (a & b))
    }

    pub fn has(self, c: usize) -> bool
        requires { c < 1024 }
        ensures { result ≡ row_bit self.words c }
    {
        let word = self.words[c / 64];
        (word >> (c % 64)) % 2 == 1
    }

    // The words are joined, and not tested one by one: of an empty row, whose every word is read, that takes three fifths of the time.
    pub fn is_empty(self) -> bool
        ensures { result ≡ row_is_empty 16 self.words }
    {
        let mut any = 0;
        for word in self.words {
            any |= word;
        }
        any == 0
    }

    // The lowest configuration of the row.
    pub fn lowest(self) -> Option<usize>
        ensures { result ≡ row_lowest 16 self.words }
    {
        self.lowest_from(0)
    }

    // The lowest configuration of the row that is not below `from`. The word of `from` is read from there on, and each after it whole.
    pub fn lowest_from(self, from: usize) -> Option<usize>
        ensures { result ≡ row_lowest_from 16 self.words from }
    {
        let mut skipped = from % 64;
        for w in from / 64..Row::WORDS {
            let rest = self.words[w] >> skipped;
            if rest != 0 {
                return Some(w * 64 + skipped + rest.trailing_zeros() as usize);
            }
            skipped = 0;
        }
        None
    }

    // How many configurations the row has.
    pub fn count(self) -> usize
        ensures { result ≡ row_count 16 self.words }
    {
        let mut many = 0;
        for word in self.words {
            many += word.count_ones() as usize;
        }
        many
    }

    // Row number a of the rows that lie one after another in `rows`.
    pub fn load(rows: &[u64], a: usize) -> Row
        requires { a * 16 + 16 ≤ length rows.now }
        ensures { result.words ≡ row_in 16 rows.now a }
    {
        let at = a * Row::WORDS;
        Row {
            words: from_fn(|w| rows[at + w]),
        }
    }

    // The row has a configuration in common with row number a of those rows: most rows that have one have it in an early word, where the search ends.
    pub fn meets(self, rows: &[u64], a: usize) -> bool
        requires { a * 16 + 16 ≤ length rows.now }
        ensures { result ≡ not (row_is_empty 16 (row_intersect 16 self.words (row_in 16 rows.now a))) }
    {
        let at = a * Row::WORDS;
        (0..Row::WORDS).any(|w| self.words[w] & rows[at + w] != 0)
    }

    // Stores this row as number a of the rows that lie one after another in `rows`. The loop takes less time than `copy_from_slice`, which looks first
    // whether the two overlap.
    pub fn store(self, rows: &mut [u64], a: usize)
        requires { a * 16 + 16 ≤ length rows.old }
        ensures { rows.new ≡ with_row 16 rows.old a self.words }
    {
        let at = a * Row::WORDS;
        for w in 0..Row::WORDS {
            rows[at + w] = self.words[w];
        }
    }
}

// Word w of the row of the configurations below m.
fn below_word(m: usize, w: usize) -> u64
    requires { w < 16 }
    ensures { result ≡ word_of (λ c. ltb c m) w }
{
    let from = w * 64;
    if m <= from {
        return 0;
    }
    let more = m - from;
    if 64 <= more {
        return 0xFFFF_FFFF_FFFF_FFFF;
    }
    (1 << more) - 1
}

// Each word of the rows of features 0 to 5.
const MASKS: [u64; 6] = [
    0xAAAA_AAAA_AAAA_AAAA,
    0xCCCC_CCCC_CCCC_CCCC,
    0xF0F0_F0F0_F0F0_F0F0,
    0xFF00_FF00_FF00_FF00,
    0xFFFF_0000_FFFF_0000,
    0xFFFF_FFFF_0000_0000,
];

// Word w of the row of feature i, which is not among the first six.
fn feature_word(i: usize, w: usize) -> u64
    requires { (6 ≤ i) × (i < 64) × (w < 16) }
    ensures { result ≡ word_of (λ c. bit c i) w }
{
    if (w >> (i - 6)) % 2 == 1 {
        return 0xFFFF_FFFF_FFFF_FFFF;
    }
    0
}

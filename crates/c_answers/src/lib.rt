// How C tells the reading; the words in which it is told an answer, and a refusal told so. No `From` says so of every bool and of
// any four words: it is the convention of the C interface alone.
#![tactic(auto)]

ghost use Rattle.std.specs.Prelude.{◌≡◌};
ghost use Rattle.c_answers.specs.ReadingTold.{reading_told};
ghost use Rattle.c_answers.specs.RefusalWords.{refusal_words};

use report::{Reading, Refusal};

// Number, place, item and configuration of a refusal; how many forms tables 1 to 4 have; a configuration, or a number of lines, and three words that
// are 0; or, for none, four such words.
pub type AnswerWords = [u64; 4];

// The reading that C asks for: an exported function takes no enum.
pub fn reading_told(filled: bool) -> Reading
    ensures { result ≡ reading_told filled }
{
    if filled {
        return Reading::Filled;
    }
    Reading::Strict
}

// Tells a refusal: 1, and its words in those lent for the answer.
pub fn tell_refusal(r: Refusal, answer: &mut AnswerWords) -> u64
    ensures value { result ≡ 1 }
    ensures answer_after { answer.new ≡ refusal_words r }
{
    *answer = [r.number, r.place, r.item, r.configuration];
    1
}

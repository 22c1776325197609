// Rows of features: where exactly one of a range of them is on.
#![tactic(auto)]

ghost use Rattle.std.specs.Prelude.{◌≡◌, ◌+◌, ◌≤◌};
ghost use Rattle.sets.specs.Rows.{row_of, row_intersect};
ghost use Rattle.report.specs.Expressions.{exactly_one_on};

use sets::Row;

// The configurations of `full` where exactly one of `count` features from `first` on is on. Of the features that were passed, `some` has the
// configurations where at least one is on, `more` those where more than one is.
pub fn exactly_one(first: usize, count: usize, full: Row) -> Row
    requires { first + count ≤ 10 }
    ensures { result.words ≡ row_intersect 16 full.words (row_of 16 (exactly_one_on first count)) }
{
    let mut some = Row::empty();
    let mut more = Row::empty();
    for k in 0..count {
        let on = Row::feature(first + k);
        more = more.join(some.intersect(on));
        some = some.join(on);
    }
    full.intersect(some.minus(more))
}

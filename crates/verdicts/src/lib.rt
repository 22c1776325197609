// Answers of checks: a refusal, and the sooner of two answers of typing, each at its own configuration.
#![tactic(auto)]

ghost use Rattle.std.specs.Prelude.{◌≡◌, not, eqb};
ghost use Rattle.sets.specs.Bits.{lowest_member};
ghost use Rattle.report.specs.Verdicts.{refusal, refuse_if, or_else};
ghost use Rattle.verdicts.specs.Sooner.{precedes, sooner};

use report::{Refusal, Verdict};
use sets::AttributeSet;

// The refusal of a form or table: item and configuration are not named.
pub fn refuse(number: u64, place: usize) -> Verdict
    ensures { result ≡ Err (refusal number place 0 0) }
{
    Err(Refusal {
        number: number,
        place: place as u64,
        item: 0,
        configuration: 0,
    })
}

// Refused where `bad` holds.
pub fn refuse_if(bad: bool, number: u64, place: usize) -> Verdict
    ensures { result ≡ refuse_if bad (refusal number place 0 0) }
{
    if bad { refuse(number, place) } else { Ok(()) }
}

// The lowest of the items at fault; 0 stands for none.
// It is no Option: a field that a refusal does not name is 0.
fn lowest_item(found: AttributeSet) -> u64
    ensures { result ≡ lowest_member found.bits }
{
    found.lowest().map_or(0, |a| a as u64)
}

// The refusal by this number of form q at configuration c, where any item is at fault.
pub fn refuse_items(number: u64, q: usize, found: AttributeSet, c: usize) -> Verdict
    ensures { result ≡ refuse_if (not (eqb found.bits 0)) (refusal number q (lowest_member found.bits) c) }
{
    if found.is_empty() {
        return Ok(());
    }
    Err(Refusal {
        number: number,
        place: q as u64,
        item: lowest_item(found),
        configuration: c as u64,
    })
}

// A refusal is of a lower form than another, or of an earlier phase of the same form.
fn goes_before(s: Refusal, r: Refusal) -> bool
    ensures { result ≡ precedes s r }
{
    (s.place, s.number) < (r.place, r.number)
}

// The answer from that at lower configurations and that at one more.
pub fn sooner_of(x: Verdict, y: Verdict) -> Verdict
    ensures { result ≡ sooner x y }
{
    let Err(r) = x else {
        return y;
    };
    let Err(s) = y else {
        return x;
    };
    if goes_before(s, r) { y } else { x }
}

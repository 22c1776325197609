// One comparison by itself: the attributes that it names, and whether its sides have two kinds; and check 24. The kind table is read here alone.
#![tactic(auto)]

ghost use Rattle.std.specs.Prelude.{◌≡◌};
ghost use Rattle.report.specs.Tables.{kind_in};
ghost use Rattle.report.specs.Typing.{names_of, kinds_differ, left_of};
ghost use Rattle.report.specs.Formed.{SidesBelow};
ghost use Rattle.report.specs.FormChecks.{is_kind, constant_kind, kind_table_check, constants_check, kinds_check};
ghost use Rattle.comparisons.specs.Gathering.{names_attribute, own_of, shows, Narrow};

use decoders::{comparison_sides, decode_comparison, kind_of};
use report::{Comparison, Limits, Sides, Verdict};
use sets::AttributeSet;
use verdicts::refuse_if;

// What is gathered from all that a comparison reaches: the attributes that are named, or the left attributes that are compared with another kind.
// It says what is asked, and is no step to run: definitions go by cases on it (`own_of`, `shows`).
#[derive(Clone, Copy)]
pub enum Gathered {
    Names,
    Clashes,
}

// A number is a kind.
fn is_kind(k: usize) -> bool
    ensures { result ≡ is_kind k }
{
    k <= Limits::HIGHEST_KIND
}

// These sides have two kinds.
fn kinds_differ(sides: Sides, kinds: &[u16]) -> bool
    ensures { result ≡ kinds_differ (kind_in kinds.now) sides }
{
    match sides {
        Sides::Constant(a, k) => kind_of(kinds, a) != k,
        Sides::Attributes(a, b) => kind_of(kinds, a) != kind_of(kinds, b),
        Sides::Neither => false,
    }
}

// A comparison with these sides names attribute a.
fn names(sides: Sides, a: usize) -> bool
    ensures { result ≡ names_attribute sides a }
{
    match sides {
        Sides::Constant(b, _) => a == b,
        Sides::Attributes(b, d) => (a == b) | (a == d),
        Sides::Neither => false,
    }
}

// What a row says of a comparison by itself: that it names attribute a, or that its sides have two kinds, whatever a is.
#[tactic(auto, using(crate::proofs::OwnLaws::names_bit))]
pub fn own_shows(what: Gathered, x: Comparison, a: usize, kinds: &[u16]) -> bool
    ensures { result ≡ shows what a (own_of (kind_in kinds.now) what x) }
{
    let sides = comparison_sides(x);
    match what {
        Gathered::Names => names(sides, a),
        Gathered::Clashes => kinds_differ(sides, kinds),
    }
}

// The attributes that a comparison with these sides names.
fn named_set(sides: Sides) -> AttributeSet
    requires { SidesBelow 64 sides }
    ensures { result.bits ≡ names_of sides }
{
    match sides {
        Sides::Constant(a, _) => AttributeSet::single(a),
        Sides::Attributes(a, b) => AttributeSet::single(a).with(b),
        Sides::Neither => AttributeSet::empty(),
    }
}

// Its left attribute.
fn left_set(sides: Sides) -> AttributeSet
    requires { SidesBelow 64 sides }
    ensures { result.bits ≡ left_of sides }
{
    match sides {
        Sides::Constant(a, _) | Sides::Attributes(a, _) => AttributeSet::single(a),
        Sides::Neither => AttributeSet::empty(),
    }
}

// What is gathered from a comparison by itself.
pub fn own_set(what: Gathered, x: Comparison, kinds: &[u16]) -> AttributeSet
    requires { Narrow x }
    ensures { result.bits ≡ own_of (kind_in kinds.now) what x }
{
    let sides = comparison_sides(x);
    match what {
        Gathered::Names => named_set(sides),
        Gathered::Clashes => {
            if kinds_differ(sides, kinds) {
                return left_set(sides);
            }
            AttributeSet::empty()
        }
    }
}

// The kind that stands in a comparison with these sides; 0 where none does.
fn constant_kind(sides: Sides) -> usize
    ensures { result ≡ constant_kind sides }
{
    match sides {
        Sides::Constant(_, k) => k,
        Sides::Attributes(_, _) | Sides::Neither => 0,
    }
}

// Check 24 of the kind table, where there are m attributes.
fn check_kind_table(m: usize, kinds: &[u16]) -> Verdict
    ensures { result ≡ kind_table_check m kinds.now }
{
    let count = kinds.len();
    refuse_if(count != m, 24, 0)?;
    for a in 0..count {
        let k = kind_of(kinds, a);
        refuse_if(!is_kind(k), 24, a)?;
    }
    Ok(())
}

// Check 24 of the comparisons.
fn check_constants(comparisons: &[u16]) -> Verdict
    ensures { result ≡ constants_check comparisons.now }
{
    for f in 0..comparisons.len() / 5 {
        let k = constant_kind(comparison_sides(decode_comparison(comparisons, f)));
        refuse_if(!is_kind(k), 24, f)?;
    }
    Ok(())
}

// Check 24.
#[tactic(auto, unfolding(report::specs::FormChecks::kinds_check))]
pub fn check_kinds(m: usize, comparisons: &[u16], kinds: &[u16]) -> Verdict
    ensures { result ≡ kinds_check m kinds.now comparisons.now }
{
    check_kind_table(m, kinds)?;
    check_constants(comparisons)
}

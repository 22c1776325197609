// Sets of attributes.
ghost use Rattle.std.specs.Prelude.{◌-◌, ◌≡◌, cond, ◌<◌, ◌^◌, eqb};
ghost use Rattle.std.specs.Int.Bits.{bit_and, bit_or, bit_xor};
ghost use Rattle.sets.specs.Search.{lowest};
ghost use Rattle.sets.specs.Bits.{bit, difference, member_count, has_from};

// A set of attributes: attribute a is in it where bit a is 1. MOST_ATTRIBUTES is how many a set has room for. MOST_FEATURES says nothing of a set: it
// stands here because the specification names the two limits in one breath. The limits of tables are constants of `report::Limits`. An attribute is a
// number, below 64 where a function asks so: a type of attributes would ask it of every caller.
#[derive(Clone, Copy)]
pub struct AttributeSet {
    pub bits: u64,
}

impl AttributeSet {
    pub const MOST_FEATURES: usize = 10;

    pub const MOST_ATTRIBUTES: usize = 64;

    pub fn empty() -> AttributeSet
        ensures { result.bits ≡ 0 }
    {
        AttributeSet { bits: 0 }
    }

    // The set of all attributes that a set has room for.
    pub fn all() -> AttributeSet
        ensures { result.bits ≡ 2 ^ 64 - 1 }
    {
        AttributeSet {
            bits: 0xFFFF_FFFF_FFFF_FFFF,
        }
    }

    // The set whose attributes are the bits of a word that are 1.
    pub fn of_bits(bits: u64) -> AttributeSet
        ensures { result.bits ≡ bits }
    {
        AttributeSet { bits }
    }

    // The set of attribute a alone.
    pub fn single(a: usize) -> AttributeSet
        requires { a < 64 }
        ensures { result.bits ≡ 2 ^ a }
    {
        AttributeSet { bits: 1 << a }
    }

    // This set and attribute a.
    pub fn with(self, a: usize) -> AttributeSet
        requires { a < 64 }
        ensures { result.bits ≡ bit_or self.bits (2 ^ a) }
    {
        self.union(AttributeSet::single(a))
    }

    // This set, and attribute a if the test is true.
    pub fn with_if(self, a: usize, test: bool) -> AttributeSet
        requires { a < 64 }
        ensures { result.bits ≡ cond test (bit_or self.bits (2 ^ a)) self.bits }
    {
        if test {
            return self.with(a);
        }
        self
    }

    pub fn union(self, other: AttributeSet) -> AttributeSet
        ensures { result.bits ≡ bit_or self.bits other.bits }
    {
        AttributeSet {
            bits: self.bits | other.bits,
        }
    }

    pub fn intersect(self, other: AttributeSet) -> AttributeSet
        ensures { result.bits ≡ bit_and self.bits other.bits }
    {
        AttributeSet {
            bits: self.bits & other.bits,
        }
    }

    // The attributes of this set that the other lacks.
    pub fn minus(self, other: AttributeSet) -> AttributeSet
        ensures { result.bits ≡ difference self.bits other.bits }
    {
        AttributeSet {
            bits: self.bits ^ (self.bits & other.bits),
        }
    }

    // The attributes that one of the two sets has, and not both.
    pub fn unequal(self, other: AttributeSet) -> AttributeSet
        ensures { result.bits ≡ bit_xor self.bits other.bits }
    {
        AttributeSet {
            bits: self.bits ^ other.bits,
        }
    }

    pub fn has(self, a: usize) -> bool
        requires { a < 64 }
        ensures { result ≡ bit self.bits a }
    {
        (self.bits >> a) % 2 == 1
    }

    // The set has an attribute at or above m. A word cannot be shifted by its 64 bits, so m is compared first.
    pub fn has_from(self, m: usize) -> bool
        ensures { result ≡ has_from self.bits m }
    {
        m < AttributeSet::MOST_ATTRIBUTES && (self.bits >> m) != 0
    }

    pub fn is_empty(self) -> bool
        ensures { result ≡ eqb self.bits 0 }
    {
        self.bits == 0
    }

    // The lowest attribute of the set.
    pub fn lowest(self) -> Option<usize>
        ensures { result ≡ lowest (bit self.bits) 64 }
    {
        if self.bits == 0 {
            None
        } else {
            Some(u64::trailing_zeros(self.bits) as usize)
        }
    }

    // How many attributes the set has.
    pub fn count(self) -> usize
        ensures { result ≡ member_count self.bits }
    {
        self.bits.count_ones() as usize
    }
}

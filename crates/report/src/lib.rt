// The head of tables: how many features and attributes there are, and the number of the model's expression.
#![tactic(auto)]

#[derive(Clone, Copy)]
pub struct Head {
    pub features: usize,
    pub attributes: usize,
    pub model: usize,
}

// The words of whole tables: their head, tables 0 to 4 and the kind table.
#[derive(Clone, Copy)]
pub struct TableWords<'a> {
    pub head: Head,
    pub expressions: &'a [u16],
    pub entries: &'a [u16],
    pub relations: &'a [u16],
    pub comparisons: &'a [u16],
    pub queries: &'a [u16],
    pub kinds: &'a [u16],
}

// A refusal: its number, and the place, item and configuration that the table of refusals (docs/FORMAT.md) names for that number. A field that
// the table does not name is 0. The number is no enum: C is told it (`RefusalWords`), and the theorems on the first fault speak of numbers.
#[derive(Clone, Copy)]
pub struct Refusal {
    pub number: u64,
    pub place: u64,
    pub item: u64,
    pub configuration: u64,
}

// What a check answers: nothing where it accepts, and else the refusal.
pub type Verdict = Result<(), Refusal>;

// A form of table 0. ExactlyOne is first feature, number of features. Malformed: its kind is unknown, or a word that its kind leaves unused is not 0. It is
// a form among others and no `None`: after the checks of form there is none, and every later match would open an `Option` for nothing.
#[derive(Clone, Copy)]
pub enum Expression {
    Malformed,
    False,
    True,
    Feature(usize),
    Not(usize),
    And(usize, usize),
    Or(usize, usize),
    ExactlyOne(usize, usize),
}

// A form of table 3. Constant is operator, attribute, constant, the constant's kind; Attribute is operator, attribute, attribute; Choice is
// expression, comparison where it holds, comparison elsewhere. Malformed as in table 0. Operator and kind are words and no enums: checks 7 and 24 refuse
// those that are none, by their place, so until then any word stands there.
#[derive(Clone, Copy)]
pub enum Comparison {
    Malformed,
    Never,
    Always,
    Constant(usize, usize, usize, usize),
    Attribute(usize, usize, usize),
    Not(usize),
    And(usize, usize),
    Or(usize, usize),
    Choice(usize, usize, usize),
}

// A form of table 4. Select is comparison, query; Project is number of entries, query; Choice is expression, query where it holds, query
// elsewhere. Malformed as in table 0.
#[derive(Clone, Copy)]
pub enum Query {
    Malformed,
    Empty,
    Relation(usize),
    Select(usize, usize),
    Project(usize, usize),
    Choice(usize, usize, usize),
    Product(usize, usize),
    Union(usize, usize),
    Intersection(usize, usize),
}

// What a form of table 3 or 4 refers to in its own table. Choice is expression, form where it holds, form elsewhere.
#[derive(Clone, Copy)]
pub enum Operands {
    Nothing,
    One(usize),
    Both(usize, usize),
    Choice(usize, usize, usize),
}

// What a form of table 3 compares by itself. Constant is attribute, the constant's kind; Attributes is left attribute, right attribute.
#[derive(Clone, Copy)]
pub enum Sides {
    Constant(usize, usize),
    Attributes(usize, usize),
    Neither,
}

// How a report is read. Strict: a relation that is absent, or a projected attribute that the operand lacks, is a fault wherever it is reached. Filled: the
// relation counts as empty there, and the attribute is dropped.
// It says what is asked, and is no step to run: definitions go by cases on it (`faults_by`).
#[derive(Clone, Copy)]
pub enum Reading {
    Strict,
    Filled,
}

// The limits of tables (docs/FORMAT.md, "Tables"); those of features and attributes stand with `AttributeSet`. SMALL is ours, a matter of time alone.
#[derive(Clone, Copy)]
pub struct Limits {}

impl Limits {
    pub const MOST_EXPRESSIONS: usize = 256;

    pub const MOST_ENTRIES: usize = 512;

    pub const MOST_RELATIONS: usize = 32;

    pub const MOST_COMPARISONS: usize = 256;

    pub const MOST_QUERIES: usize = 256;

    // 0 moment, 1 count, 2 name
    pub const HIGHEST_KIND: usize = 2;

    // Small tables have at most so many forms: they do not pay for clearing the scratch of large ones.
    pub const SMALL: usize = 16;
}

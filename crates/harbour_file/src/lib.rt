// Reading a harbour file into lent tables.
#![tactic(auto)]

ghost use Rattle.std.specs.Prelude.{◌≡◌, ◌+◌, ◌≤◌, length};
ghost use Rattle.report.specs.HarbourFile.{file_of};
ghost use Rattle.harbour_file.specs.Reading.{group_lines_from, part_from, kind_part, file_parts, file_from};
ghost use Rattle.harbour_file.specs.Filing.{lines_left, group_left, kinds_left, GroupRoom, GroupTaken};
ghost use Rattle.harbour_file.specs.Filing.{head_of, file_words, Lent, groups_left, file_left, Filed};

use reading::read_line;
use report::{Head, Limits};
use sets::AttributeSet;

// Where the lines of a group end: the position, the number of the line that stands there, and how many words were stored.
#[derive(Clone, Copy)]
struct Place {
    at: usize,
    line: usize,
    end: usize,
}

// How many words of each table were read.
#[derive(Clone, Copy)]
pub struct Sizes {
    pub expressions: usize,
    pub entries: usize,
    pub relations: usize,
    pub comparisons: usize,
    pub queries: usize,
    pub kinds: usize,
}

// The first bad line of a file, by its number from 1; the number 0 says that the file is too long, as the
// definition and the print do.
#[derive(Clone, Copy, Debug, PartialEq, Eq)]
pub struct BadLine {
    pub number: usize,
}

// At most `most` lines of the word and `width` numbers, from a place on.
fn read_lines(
    s: &[u8],
    word: &[u8],
    width: usize,
    most: usize,
    from: Place,
    out: &mut [u16],
) -> Place
    requires { GroupRoom width most from.line out.old }
    ensures { GroupTaken (group_lines_from s.now word.now width most from.at from.line)
        (lines_left s.now word.now width most from.at from.line out.old) (from.line + most) result
        out.new }
{
    let mut at = from.at;
    let mut end = 0;
    for k in 0..most {
        let Ok(p) = read_line(s, word, width, at, out, end) else {
            let line = from.line + k;
            return Place { at, line, end };
        };
        at = p;
        end += width;
    }
    let line = from.line + most;
    Place { at, line, end }
}

// The head line, which is the first.
fn read_head(s: &[u8], head: &mut [u16]) -> Place
    requires { 3 ≤ length head.old }
    ensures { GroupTaken (part_from s.now 0 0 1) (group_left s.now 0 0 1 head.old) 2 result head.new }
{
    let start = Place {
        at: 0,
        line: 1,
        end: 0,
    };
    read_lines(s, b"(head", 3, 1, start, head)
}

// The kind lines of a file of m attributes. With none all kinds are 0: the words are cleared, since a line that is not read may have left a number.
fn read_kinds(s: &[u8], m: usize, from: Place, kinds: &mut [u16]) -> Place
    requires { GroupRoom 1 64 from.line kinds.old }
    ensures { GroupTaken (kind_part m (part_from s.now 6 from.at from.line))
        (kinds_left m s.now from.at from.line kinds.old) (from.line + 64) result kinds.new }
{
    let k = read_lines(s, b"(kind", 1, AttributeSet::MOST_ATTRIBUTES, from, kinds);
    if k.end != 0 {
        return k;
    }
    let count = m.min(AttributeSet::MOST_ATTRIBUTES);
    kinds[..count].fill(0);
    Place { end: count, ..k }
}

// The head, from its three words. It is no `From`: three words are a head in a file alone.
pub fn decode_head(words: &[u16]) -> Head
    requires { 3 ≤ length words.now }
    ensures { result ≡ head_of words.now }
{
    Head {
        features: usize::from(words[0]),
        attributes: usize::from(words[1]),
        model: usize::from(words[2]),
    }
}

// The groups in their order, each with its word, the words of its form and its range.
fn read_groups(
    s: &[u8],
    head: &mut [u16],
    expressions: &mut [u16],
    entries: &mut [u16],
    relations: &mut [u16],
    comparisons: &mut [u16],
    queries: &mut [u16],
    kinds: &mut [u16],
) -> Result<Sizes, BadLine>
    requires { Lent (file_words head.old expressions.old entries.old relations.old comparisons.old queries.old kinds.old) }
    ensures { Filed (file_from s.now (file_parts s.now))
        (groups_left s.now
        (file_words head.old expressions.old entries.old relations.old comparisons.old
        queries.old kinds.old)) result
        (file_words head.new expressions.new entries.new relations.new comparisons.new
        queries.new kinds.new) }
{
    let h = read_head(s, head);
    let x = read_lines(
        s,
        b"(expression",
        3,
        Limits::MOST_EXPRESSIONS,
        h,
        expressions,
    );
    let e = read_lines(s, b"(entry", 2, Limits::MOST_ENTRIES, x, entries);
    let r = read_lines(s, b"(relation", 2, Limits::MOST_RELATIONS, e, relations);
    let c = read_lines(
        s,
        b"(comparison",
        5,
        Limits::MOST_COMPARISONS,
        r,
        comparisons,
    );
    let q = read_lines(s, b"(query", 4, Limits::MOST_QUERIES, c, queries);
    let k = read_kinds(s, usize::from(head[1]), q, kinds);
    if h.end == 0 {
        return Err(BadLine { number: 1 });
    }
    if k.at != s.len() {
        return Err(BadLine { number: k.line });
    }
    Ok(Sizes {
        expressions: x.end,
        entries: e.end,
        relations: r.end,
        comparisons: c.end,
        queries: q.end,
        kinds: k.end,
    })
}

// The length of the longest file that is read.
pub const LONGEST_FILE: usize = 65536;

// The whole file: its head and its tables into the lent ones. A longer one is not read.
// The tables are slices, and not the arrays of one struct, since a caller may lend longer ones (`Lent`).
pub fn read_file(
    s: &[u8],
    head: &mut [u16],
    expressions: &mut [u16],
    entries: &mut [u16],
    relations: &mut [u16],
    comparisons: &mut [u16],
    queries: &mut [u16],
    kinds: &mut [u16],
) -> Result<Sizes, BadLine>
    requires { Lent (file_words head.old expressions.old entries.old relations.old comparisons.old queries.old kinds.old) }
    ensures { Filed (file_of s.now)
        (file_left s.now
        (file_words head.old expressions.old entries.old relations.old comparisons.old
        queries.old kinds.old)) result
        (file_words head.new expressions.new entries.new relations.new comparisons.new
        queries.new kinds.new) }
{
    if LONGEST_FILE < s.len() {
        return Err(BadLine { number: 0 });
    }
    read_groups(
        s,
        head,
        expressions,
        entries,
        relations,
        comparisons,
        queries,
        kinds,
    )
}

// Numbers, fixed byte strings and lines at a position of a text. Each function answers the position where it stopped.
#![tactic(auto)]

ghost use Rattle.std.specs.Prelude.{◌≡◌, ◌+◌, ◌≤◌, length};
ghost use Rattle.reading.specs.Scanning.{next_digit, number_at, word_at, spaced_at, numbers_at, line_at, Stored};

// A byte after some digits: no digit; a digit that the number cannot have; or a digit that makes it this value. (Three ways to go on, so an Option of a
// Result would be no plainer.)
#[derive(Clone, Copy)]
pub enum Digit {
    End,
    Over,
    More(usize),
}

// The position of the byte that what is read there cannot have.
#[derive(Clone, Copy, Debug, PartialEq, Eq)]
pub struct Broken {
    pub at: usize,
}

// What byte b is after digits of value v.
#[tactic(auto, unfolding(crate::specs::Scanning::next_digit))]
fn next_digit(v: usize, b: u8) -> Digit
    requires { v ≤ 65535 }
    ensures { result ≡ next_digit v b }
{
    if b.is_ascii_digit() {
        let w = v * 10 + usize::from(b - b'0');
        if (0 < v) & (w <= 65535) {
            return Digit::More(w);
        }
        return Digit::Over;
    }
    Digit::End
}

// The number at a position, and the position after it.
#[tactic(auto, unfolding(crate::specs::Scanning::number_at, crate::specs::Scanning::first_digit, crate::specs::Scanning::more_digits))]
pub fn scan_number(s: &[u8], at: usize) -> Result<(u16, usize), Broken>
    ensures { result ≡ number_at s.now at }
{
    let first = match s.get(at) {
        Some(b) if b.is_ascii_digit() => *b,
        _ => return Err(Broken { at }),
    };
    let mut value = usize::from(first - b'0');
    for p in at + 1..s.len() {
        match next_digit(value, s[p]) {
            Digit::End => return Ok((value as u16, p)),
            Digit::Over => return Err(Broken { at: p }),
            Digit::More(w) => value = w,
        }
    }
    Ok((value as u16, s.len()))
}

// The word at a position. Answers the position after it.
#[tactic(auto, unfolding(crate::specs::Scanning::word_at, crate::specs::Scanning::word_from))]
// The position is no index of the word: it is where the text is read, and the answer is where that stopped.
pub fn scan_word(word: &[u8], s: &[u8], at: usize) -> Result<usize, Broken>
    ensures { result ≡ word_at word.now s.now at }
{
    let mut p = at;
    for w in word {
        if s.get(p) != Some(w) {
            return Err(Broken { at: p });
        }
        p += 1;
    }
    Ok(p)
}

// A space, then a number.
#[tactic(auto, unfolding(crate::specs::Scanning::spaced_at))]
pub fn scan_spaced(s: &[u8], at: usize) -> Result<(u16, usize), Broken>
    ensures { result ≡ spaced_at s.now at }
{
    scan_number(s, scan_word(b" ", s, at)?)
}

// `count` numbers, each after one space, into `out` from `to` on.
#[tactic(auto, unfolding(crate::specs::Scanning::numbers_at))]
fn read_numbers(
    s: &[u8],
    at: usize,
    count: usize,
    out: &mut [u16],
    to: usize,
) -> Result<usize, Broken>
    requires { to + count ≤ length out.old }
    ensures { Stored (numbers_at s.now count at) result out.old to out.new }
{
    let mut p = at;
    for i in 0..count {
        let (v, next) = scan_spaced(s, p)?;
        out[to + i] = v;
        p = next;
    }
    Ok(p)
}

// The line of a word and `width` numbers at a position: its numbers into `out` from `to` on.
#[tactic(auto, unfolding(crate::specs::Scanning::line_at))]
pub fn read_line(
    s: &[u8],
    word: &[u8],
    width: usize,
    at: usize,
    out: &mut [u16],
    to: usize,
) -> Result<usize, Broken>
    requires { to + width ≤ length out.old }
    ensures { Stored (line_at s.now word.now width at) result out.old to out.new }
{
    let p = scan_word(word, s, at)?;
    let q = read_numbers(s, p, width, out, to)?;
    scan_word(b")\n", s, q)
}

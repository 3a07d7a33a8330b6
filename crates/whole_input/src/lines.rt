//! Lines, one by one.
ghost use Rattle.std.specs.Prelude.{◌≡◌, ◌∷◌, ◌<◌, ◌≤◌, ℕ, [], List, length, IfSome, IfNone, IfOk, IsErrOf, Result as AnyResult};
ghost use Rattle.forms.specs.Lines.{lines};
ghost use Rattle.whole_input.specs.Numbered.{AreRead, IsFirstFault};

use crate::split::split_at;
use memchr::memchr_iter;
use std::alloc::Global;

/// The first line of a text without the line feed that may end it, and what follows, or None exactly where the text is empty: of `a`, a
/// line feed and `b` it is `a` and `b`.
pub fn first_line(text: &[u8]) -> Option<(&[u8], &[u8])>
    ensures lines { IfSome result (λ r. lines text.now ≡ r.0.now ∷ lines r.1.now) }
    ensures shorter { IfSome result (λ r. length r.1.now < length text.now) }
    ensures none { IfNone result (text.now ≡ []) }
{
    if text.is_empty() {
        return None;
    }
    match split_at(b'\n', text) {
        Some((line, rest)) => Some((line, rest)),
        None => Some((text, &[])),
    }
}

/// What reads lines, each by itself.
pub trait ReadLine<X, F> {
    // What a line with a number is: a value, or a fault.
    ghost is_read: { Self → List ℕ → ℕ → AnyResult X F → Type 0 };

    /// The value of a line with its number, from 1 on, or the line's fault.
    fn read_line(&self, line: &[u8], number: u64) -> Result<X, F>
        ensures { is_read self.now line.now number result };
}

/// Why the lines of a text have no values.
#[derive(Clone, Copy, Debug, PartialEq, Eq)]
pub enum LineError<F> {
    /// This line, from 1 on, is the first that has a fault.
    Refused { line: u64, fault: F },
    /// There was no memory.
    NoMemory,
}

/// The values of all lines of a text, in order, or the first line that has a fault: `Refused` with its number and the fault. `NoMemory`
/// may stand in place of both: it asks for memory once, a value's for each line.
pub fn read_lines<X: Drop, F, R: ReadLine<X, F>>(
    alloc: Global,
    reader: &R,
    text: &[u8],
) -> Result<Vec<X>, LineError<F>>
    ensures ok { IfOk result (λ values.
        AreRead (R.is_read reader.now) 1 (lines text.now) values.items) }
    ensures refused { (line : ℕ) (fault : F) → IsErrOf result (LineError.Refused line fault)
        → IsFirstFault (R.is_read reader.now) (lines text.now) line fault }
{
    let Ok(mut values) = Vec::with_capacity(alloc, most_lines(text)) else {
        return Err(LineError::NoMemory);
    };
    let mut number: u64 = 1;
    let mut rest = text;
    while let Some((line, after)) = first_line(rest) {
        let value = match reader.read_line(line, number) {
            Ok(value) => value,
            Err(fault) => return Err(LineError::Refused {
                line: number,
                fault,
            }),
        };
        values.push(value).unwrap();
        number += 1;
        rest = after;
    }
    Ok(values)
}

/// How many lines a text has: of `a`, a line feed and `b` it is 2, and of a text that ends with its only line feed it is 1.
pub fn count_lines(text: &[u8]) -> usize
    ensures { result ≡ length (lines text.now) }
{
    let mut count = 0;
    let mut rest = text;
    while let Some((_, after)) = first_line(rest) {
        count += 1;
        rest = after;
    }
    count
}

/// How many lines a text has at most: one for each line feed, and one more.
fn most_lines(text: &[u8]) -> usize
    ensures { length (lines text.now) ≤ result }
{
    memchr_iter(b'\n', text).count() + 1
}

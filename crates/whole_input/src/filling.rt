//! The values of lines in the slice of a caller.
ghost use Rattle.std.specs.Prelude.{◌≡◌, ◌<◌, ◌≤◌, ℕ, length, take, drop, IfOk, IsErrOf, Err};
ghost use Rattle.forms.specs.Lines.{lines};
ghost use Rattle.whole_input.specs.Numbered.{AreRead, IsFirstFault};

use crate::lines::{ReadLine, count_lines, first_line};

/// Why the lines of a text have no values in a slice.
#[derive(Clone, Copy, Debug, PartialEq, Eq)]
pub enum FillError<F> {
    /// There are more lines than places.
    NoRoom,
    /// This line, from 1 on, is the first that has a fault.
    Refused { line: u64, fault: F },
}

/// How many lines a text has, and whether their values stand at the front of the slice, in order. `NoRoom` comes exactly where there are
/// more lines than places, whatever the lines are, and then all places are as they were; else the first line that has a fault is `Refused`.
/// Behind the places of the lines all is as it was. It takes no memory.
///
/// Of no places it is the number of lines and `NoRoom`, or 0 where the text is empty.
pub fn read_lines_into<X: Drop, F, R: ReadLine<X, F>>(
    reader: &R,
    text: &[u8],
    values: &mut [X],
) -> (usize, Result<(), FillError<F>>)
    ensures count { result.0 ≡ length (lines text.now) }
    ensures room { length values.old < result.0
        → (result.1 ≡ Err FillError.NoRoom) × (values.new ≡ values.old) }
    ensures fits { result.1 ≡ Err FillError.NoRoom → length values.old < result.0 }
    ensures ok { IfOk result.1 (λ _.
        AreRead (R.is_read reader.now) 1 (lines text.now) (take result.0 values.new)) }
    ensures refused { (line : ℕ) (fault : F) → IsErrOf result.1 (FillError.Refused line fault)
        → IsFirstFault (R.is_read reader.now) (lines text.now) line fault }
    ensures len { length values.new ≡ length values.old }
    ensures behind { drop result.0 values.new ≡ drop result.0 values.old }
{
    let count = count_lines(text);
    if count > values.len() {
        return (count, Err(FillError::NoRoom));
    }
    match put_values(reader, text, values) {
        Ok(()) => (count, Ok(())),
        Err((line, fault)) => (count, Err(FillError::Refused { line, fault })),
    }
}

/// Puts the values of lines at the front of a slice that has places for them, up to the first line that has a fault: its number and the
/// fault.
fn put_values<X: Drop, F, R: ReadLine<X, F>>(
    reader: &R,
    text: &[u8],
    values: &mut [X],
) -> Result<(), (u64, F)>
    requires { length (lines text.now) ≤ length values.old }
    ensures ok { IfOk result (λ _. AreRead (R.is_read reader.now) 1 (lines text.now)
        (take (length (lines text.now)) values.new)) }
    ensures refused { (line : ℕ) (fault : F) → IsErrOf result (line, fault)
        → IsFirstFault (R.is_read reader.now) (lines text.now) line fault }
    ensures len { length values.new ≡ length values.old }
    ensures behind { drop (length (lines text.now)) values.new
        ≡ drop (length (lines text.now)) values.old }
{
    let mut done = 0;
    let mut rest = text;
    while let Some((line, after)) = first_line(rest) {
        let number = done as u64 + 1;
        match reader.read_line(line, number) {
            Ok(value) => values[done] = value,
            Err(fault) => return Err((number, fault)),
        }
        done += 1;
        rest = after;
    }
    Ok(())
}

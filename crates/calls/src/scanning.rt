//! The calls of `scan_core`.
ghost use Rattle.std.specs.Prelude.{◌≡◌, ◌<◌};

use crate::arguments::{numbers, word_and_text};
use crate::named::named;
use crate::short_texts::{self, Pushed};
use crate::told::{Answer, told};
use scan_core::{
    Looked, Scan, Share, Steps, Totals, Unit, add_scanned, count_share, digits_u32, is_blank,
    looked_share, n_digits_in, split_digits,
};
use std::alloc::{AllocError, Global};
use std::marker::Brand;
use std::sync::ledger::{Blank, Ledger};

/// Months, days and microseconds.
type Sums = (i32, i32, i64);

/// The units by their names.
const UNITS: [(&str, Unit); 7] = [
    ("Year", Unit::Year),
    ("Month", Unit::Month),
    ("Week", Unit::Week),
    ("Day", Unit::Day),
    ("Hour", Unit::Hour),
    ("Minute", Unit::Minute),
    ("Second", Unit::Second),
];

/// A call of a table.
#[derive(Clone, Copy)]
enum Call {
    Blanks,
    DigitsU32,
    NDigitsIn,
    SplitDigits,
    OfUnit(OfUnit),
    Totals,
    FirstOut,
    Front(Front),
    Pushed(Pushed),
    PushTwo,
}

/// A call that gives the share of a number of a unit.
#[derive(Clone, Copy)]
enum OfUnit {
    CountShare,
    AddScanned,
    LookedShare,
}

/// A call that passes the front of a text.
#[derive(Clone, Copy)]
enum Front {
    Digits,
    SixDigits,
    FractionDigits,
    Letters,
    IsGreatNumber,
    IsLongWord,
    EndOfLetters,
}

/// The calls by their names.
const CALLS: [(&str, Call); 19] = [
    ("blanks", Call::Blanks),
    ("digits_u32", Call::DigitsU32),
    ("n_digits_in", Call::NDigitsIn),
    ("split_digits", Call::SplitDigits),
    ("count_share", Call::OfUnit(OfUnit::CountShare)),
    ("totals", Call::Totals),
    ("first_out", Call::FirstOut),
    ("add_scanned", Call::OfUnit(OfUnit::AddScanned)),
    ("looked_share", Call::OfUnit(OfUnit::LookedShare)),
    ("digits", Call::Front(Front::Digits)),
    ("digits_up_to 6", Call::Front(Front::SixDigits)),
    ("fraction_digits", Call::Front(Front::FractionDigits)),
    ("letters", Call::Front(Front::Letters)),
    ("digits from 10^18", Call::Front(Front::IsGreatNumber)),
    ("letters from 2^56", Call::Front(Front::IsLongWord)),
    ("end of letters", Call::Front(Front::EndOfLetters)),
    (
        "push_num and push_padded",
        Call::Pushed(Pushed::NumAndPadded),
    ),
    ("push_trimmed", Call::Pushed(Pushed::Trimmed)),
    ("push_two", Call::PushTwo),
];

/// What the call answers.
pub fn answer(alloc: Global, call: &str, arguments: &str) -> Answer {
    match named(&CALLS, call)? {
        Call::Blanks => told(alloc, &blanks(alloc).ok()?.as_slice()),
        Call::DigitsU32 => told(alloc, &number_of(arguments)?),
        Call::NDigitsIn => n_digits(alloc, arguments),
        Call::SplitDigits => split(alloc, arguments),
        Call::OfUnit(call) => told(alloc, &of_unit(call, arguments)?),
        Call::Totals => told(alloc, &totals_of(arguments)?.fits()),
        Call::FirstOut => told(alloc, &totals_of(arguments)?.first_out()),
        Call::Front(call) => passed(alloc, call, arguments),
        Call::Pushed(call) => short_texts::answer(alloc, call, arguments),
        Call::PushTwo => short_texts::two_digits(alloc, arguments),
    }
}

/// What `split_digits` answers.
fn split(alloc: Global, of: &str) -> Answer {
    let (front, rest) = split_digits(of.as_bytes());
    let (front, rest) = (str::from_utf8(front).ok()?, str::from_utf8(rest).ok()?);
    told(alloc, &(front, rest))
}

/// What the call answers to a number behind its unit.
fn of_unit(call: OfUnit, arguments: &str) -> Option<Option<Sums>> {
    let (unit, number) = word_and_text(arguments)?;
    let unit = named(&UNITS, unit)?;
    Some(match call {
        OfUnit::CountShare => share_of(number, unit),
        OfUnit::AddScanned => sums(number, unit)[0],
        OfUnit::LookedShare => sums(number, unit)[1],
    })
}

/// What `n_digits_in` answers to a text behind the count of digits and the bounds.
fn n_digits(alloc: Global, arguments: &str) -> Answer {
    let (bounds, of) = arguments.split_once(", ")?;
    let [n, lo, hi] = numbers::<3>(bounds)?;
    let n = usize::try_from(n).ok()?;
    let (lo, hi) = (u32::try_from(lo).ok()?, u32::try_from(hi).ok()?);
    if n < 1 || n > 9 {
        return None;
    }
    told(alloc, &n_digits_in(of.as_bytes(), n, lo, hi))
}

/// What `digits_u32` answers to a text of one digit or more.
#[tactic(auto, using(scan_core::proofs::FrontFacts::front_are_digits))]
fn number_of(text: &str) -> Option<Option<u32>> {
    let (front, rest) = split_digits(text.as_bytes());
    if front.is_empty() || !rest.is_empty() {
        return None;
    }
    Some(digits_u32(front))
}

/// All bytes that are blank.
fn blanks(alloc: Global) -> Result<Vec<u8>, AllocError> {
    let mut blanks = Vec::new(alloc);
    for byte in 0..=255 {
        if is_blank(byte) {
            blanks.push(byte)?;
        }
    }
    Ok(blanks)
}

/// What the call answers to the front of a text.
fn passed(alloc: Global, call: Front, text: &str) -> Answer {
    let [digits, six, fraction, letters] = fronts(text);
    match call {
        Front::Digits => told(alloc, &digits),
        Front::SixDigits => told(alloc, &six),
        Front::FractionDigits => told(alloc, &fraction),
        Front::Letters => told(alloc, &letters),
        Front::IsGreatNumber => told(alloc, &(digits.0 >= 1_000_000_000_000_000_000)),
        Front::IsLongWord => told(alloc, &(letters.0 >= 1 << 56)),
        Front::EndOfLetters => told(alloc, &letters.1),
    }
}

/// The value and the end of the digits in front, of the first six of them, of the digits as those of a fraction, and of the letters.
fn fronts(text: &str) -> [(u64, usize); 4] {
    fronts_alone::<Brand>(&Looked::new(text), Blank::new(1))
}

/// The same with a counter of its own.
fn fronts_alone<L: Ledger>(text: &Looked<'_>, blank: Blank) -> [(u64, usize); 4]
    requires name { blank.name ≡ L.name }
    requires parts { blank.parts ≡ L.parts }
    requires some { 0 < L.parts }
{
    let mut steps = Steps::<L>::new(blank);
    let digits = Scan::new(text, &mut steps).digits(&mut steps);
    let six = Scan::new(text, &mut steps).digits_up_to(6, &mut steps);
    let fraction = Scan::new(text, &mut steps).fraction_digits(&mut steps);
    let letters = Scan::new(text, &mut steps).letters(&mut steps);
    [
        (digits.value, digits.end),
        (six.value, six.end),
        (fraction.value, fraction.end),
        (letters.value, letters.end),
    ]
}

/// The sums of one negative count of the unit whose digits the text is, with a point or without, and its share by its places.
fn sums(text: &str, unit: Unit) -> [Option<Sums>; 2] {
    sums_alone::<Brand>(&Looked::new(text), unit, Blank::new(1))
}

/// The same with a counter of its own.
fn sums_alone<L: Ledger>(text: &Looked<'_>, unit: Unit, blank: Blank) -> [Option<Sums>; 2]
    requires name { blank.name ≡ L.name }
    requires parts { blank.parts ≡ L.parts }
    requires some { 0 < L.parts }
{
    let mut steps = Steps::<L>::new(blank);
    let mut totals = Totals::new();
    let mut scan = Scan::new(text, &mut steps);
    let whole = scan.digits(&mut steps);
    let _point = scan.next_if(b'.', &mut steps);
    let fraction = scan.digits(&mut steps);
    let added = add_scanned(&mut totals, text, true, whole, fraction, unit, &mut steps);
    let has_point = fraction.start > 0 && fraction.start - 1 == whole.end;
    let placed = if has_point {
        let (start, end) = (whole.start, fraction.end);
        looked_share(text, start, whole.end, end, true, unit, &mut steps)
    } else {
        let (start, end) = (whole.start, whole.end);
        looked_share(text, start, end, end, true, unit, &mut steps)
    };
    [
        if added { totals.fits() } else { None },
        placed.map(|share| (share.months, share.days, share.micros)),
    ]
}

/// The share of a number as it is written, such as `-1.5`.
#[tactic(auto, using(scan_core::proofs::FrontFacts::front_are_digits))]
fn share_of(number: &str, unit: Unit) -> Option<Sums> {
    let (negative, digits) = match number.strip_prefix('-') {
        Some(digits) => (true, digits),
        None => (false, number),
    };
    let (whole, fraction) = digits.split_once('.').unwrap_or((digits, ""));
    let (whole, behind) = split_digits(whole.as_bytes());
    let (fraction, rest) = split_digits(fraction.as_bytes());
    if !behind.is_empty() || !rest.is_empty() {
        return None;
    }
    let share = count_share(whole, fraction, negative, unit)?;
    Some((share.months, share.days, share.micros))
}

/// The totals of three shares, of nine numbers.
fn totals_of(arguments: &str) -> Option<Totals> {
    let [a, b, c, d, e, f, g, h, i] = numbers::<9>(arguments)?;
    let mut totals = Totals::new();
    totals.add(share_of_numbers([a, b, c])?);
    totals.add(share_of_numbers([d, e, f])?);
    totals.add(share_of_numbers([g, h, i])?);
    Some(totals)
}

/// The share of months, days and microseconds.
fn share_of_numbers([months, days, micros]: [i128; 3]) -> Option<Share> {
    Some(Share {
        months: i32::try_from(months).ok()?,
        days: i32::try_from(days).ok()?,
        micros: i64::try_from(micros).ok()?,
    })
}

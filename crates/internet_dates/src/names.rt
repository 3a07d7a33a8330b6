//! The names of days, months and zones.
ghost use Rattle.std.specs.Prelude.{◌≡◌, ◌+◌, ◌*◌, ◌<◌, ◌≤◌, ◌∷◌, [], ◌++◌, codes, option_map, IfSome};
ghost use Rattle.internet_dates.specs.Names.{day_name, day_names, month_name, month_names, zone_names};
ghost use Rattle.internet_dates.specs.inside.Reading.{is_name, minutes_of, place_of, read_month, read_name, read_weekday, read_zone_name};

use crate::fields::strip;

/// Three letters.
type Word = (u8, u8, u8);

/// The number whose bytes are the letters: a search among numbers takes fewer steps than one by letters.
#[inline(always)]
fn number(word: Word) -> u32
    ensures { result ≡ 65_536 * word.0 + 256 * word.1 + word.2 }
{
    65_536 * u32::from(word.0) + 256 * u32::from(word.1) + u32::from(word.2)
}

/// Whether the letters are a name.
#[inline(always)]
fn is(word: Word, a: u8, b: u8, c: u8) -> bool
    ensures { result ≡ is_name (a ∷ (b ∷ (c ∷ []))) word.0 word.1 word.2 }
{
    number(word) == number((a, b, c))
}

/// The day of the week with this name, 0 for Monday.
#[inline(always)]
fn day_of(word: Word) -> Option<u8>
    ensures { result ≡ place_of day_names 0 word.0 word.1 word.2 }
{
    if is(word, b'M', b'o', b'n') {
        Some(0)
    } else if is(word, b'T', b'u', b'e') {
        Some(1)
    } else if is(word, b'W', b'e', b'd') {
        Some(2)
    } else if is(word, b'T', b'h', b'u') {
        Some(3)
    } else if is(word, b'F', b'r', b'i') {
        Some(4)
    } else if is(word, b'S', b'a', b't') {
        Some(5)
    } else if is(word, b'S', b'u', b'n') {
        Some(6)
    } else {
        None
    }
}

/// The month with this name, 1 for January.
#[inline(always)]
fn month_of(word: Word) -> Option<u8>
    ensures { result ≡ place_of month_names 1 word.0 word.1 word.2 }
{
    if is(word, b'J', b'a', b'n') {
        Some(1)
    } else if is(word, b'F', b'e', b'b') {
        Some(2)
    } else if is(word, b'M', b'a', b'r') {
        Some(3)
    } else if is(word, b'A', b'p', b'r') {
        Some(4)
    } else if is(word, b'M', b'a', b'y') {
        Some(5)
    } else if is(word, b'J', b'u', b'n') {
        Some(6)
    } else if is(word, b'J', b'u', b'l') {
        Some(7)
    } else if is(word, b'A', b'u', b'g') {
        Some(8)
    } else if is(word, b'S', b'e', b'p') {
        Some(9)
    } else if is(word, b'O', b'c', b't') {
        Some(10)
    } else if is(word, b'N', b'o', b'v') {
        Some(11)
    } else if is(word, b'D', b'e', b'c') {
        Some(12)
    } else {
        None
    }
}

/// The day of the week whose name stands in front, and what follows it.
#[inline(always)]
#[tactic(auto, unfolding(crate::specs::inside::Reading::read_weekday))]
pub(crate) fn split_weekday(bytes: &[u8]) -> Option<(u8, &[u8])>
    ensures { option_map (λ r. (r.0, r.1.now)) result ≡ read_weekday bytes.now }
{
    match bytes {
        [a, b, c, rest @ ..] => Some((day_of((*a, *b, *c))?, rest)),
        _ => None,
    }
}

/// The month whose name stands in front, and what follows it.
#[inline(always)]
fn split_month_name(bytes: &[u8]) -> Option<(u8, &[u8])>
    ensures { option_map (λ r. (r.0, r.1.now)) result ≡ read_name month_names 1 bytes.now }
{
    match bytes {
        [a, b, c, rest @ ..] => Some((month_of((*a, *b, *c))?, rest)),
        _ => None,
    }
}

/// The same behind a blank.
#[inline(always)]
#[tactic(auto, unfolding(crate::specs::inside::Reading::read_month))]
pub(crate) fn split_month(bytes: &[u8]) -> Option<(u8, &[u8])>
    ensures { option_map (λ r. (r.0, r.1.now)) result ≡ read_month bytes.now }
{
    split_month_name(strip(b' ', bytes)?)
}

/// The place of a zone with this name.
#[inline(always)]
fn zone_of(word: Word) -> Option<u8>
    ensures place { result ≡ place_of zone_names 0 word.0 word.1 word.2 }
    ensures bound { IfSome result (λ place. place < 9) }
{
    if is(word, b'G', b'M', b'T') {
        Some(0)
    } else if is(word, b'E', b'S', b'T') {
        Some(1)
    } else if is(word, b'E', b'D', b'T') {
        Some(2)
    } else if is(word, b'C', b'S', b'T') {
        Some(3)
    } else if is(word, b'C', b'D', b'T') {
        Some(4)
    } else if is(word, b'M', b'S', b'T') {
        Some(5)
    } else if is(word, b'M', b'D', b'T') {
        Some(6)
    } else if is(word, b'P', b'S', b'T') {
        Some(7)
    } else if is(word, b'P', b'D', b'T') {
        Some(8)
    } else {
        None
    }
}

/// How many minutes the zone at this place is ahead of UTC.
#[inline(always)]
fn zone_minutes(place: u8) -> i16
    requires { place < 9 }
    ensures { result ≡ minutes_of place }
{
    match place {
        0 => 0,
        1 => -300,
        2 => -240,
        3 => -360,
        4 => -300,
        5 => -420,
        6 => -360,
        7 => -480,
        _ => -420,
    }
}

/// The zone whose name stands in front, and what follows it.
#[inline(always)]
fn split_zone(bytes: &[u8]) -> Option<(u8, &[u8])>
    ensures name { option_map (λ r. (r.0, r.1.now)) result ≡ read_name zone_names 0 bytes.now }
    ensures bound { IfSome result (λ r. r.0 < 9) }
{
    match bytes {
        [a, b, c, rest @ ..] => Some((zone_of((*a, *b, *c))?, rest)),
        _ => None,
    }
}

/// The same, as minutes ahead of UTC.
#[tactic(auto, unfolding(crate::specs::inside::Reading::read_zone_name))]
#[inline(always)]
pub(crate) fn split_zone_name(bytes: &[u8]) -> Option<(i16, &[u8])>
    ensures { option_map (λ r. (r.0, r.1.now)) result ≡ read_zone_name bytes.now }
{
    let (place, rest) = split_zone(bytes)?;
    Some((zone_minutes(place), rest))
}

/// The name of a day of the week, 0 for Monday, with the comma and the blank behind it.
pub(crate) fn day_front(weekday: u8) -> &'static str
    requires { weekday < 7 }
    ensures { result.now ≡ day_name weekday ++ codes ", " }
{
    match weekday {
        0 => "Mon, ",
        1 => "Tue, ",
        2 => "Wed, ",
        3 => "Thu, ",
        4 => "Fri, ",
        5 => "Sat, ",
        _ => "Sun, ",
    }
}

/// The name of a month, 1 for January, between two blanks.
pub(crate) fn month_between(month: u8) -> &'static str
    requires least { 1 ≤ month }
    requires most { month ≤ 12 }
    ensures { result.now ≡ codes " " ++ (month_name month ++ codes " ") }
{
    match month {
        1 => " Jan ",
        2 => " Feb ",
        3 => " Mar ",
        4 => " Apr ",
        5 => " May ",
        6 => " Jun ",
        7 => " Jul ",
        8 => " Aug ",
        9 => " Sep ",
        10 => " Oct ",
        11 => " Nov ",
        _ => " Dec ",
    }
}

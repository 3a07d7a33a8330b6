//! The written forms and their names. Each has a module of its own, which reads and writes it.
ghost use Rattle.std.specs.Prelude.{◌≡◌, ◌≢◌, ◌↔◌, ℕ, List, ◌++◌, Option, Some, IfSome, IfNone, IsTrue};
ghost use Rattle.std.specs.Option.{option_copied};
ghost use Rattle.forms.specs.Names.{is_counted, name_of, style_of};
ghost use Rattle.forms.specs.inside.Reading.{behind, by_another, by_i, by_p, Begins, HasNoneOf, IsNamed};
ghost use Rattle.forms.specs.declared.form.Form.{Form as AnyForm};

pub mod fancy;
pub mod file_time;
pub mod http_mail;
pub mod intervals;
pub mod iso_date;
pub mod iso_date_time;
pub mod iso_duration;
pub mod timestamps;
pub mod toml;
pub mod unix;
pub mod xml_durations;

use pg_interval_2::Style;

/// A written form of moments, days, times of day, intervals or lengths.
#[derive(Clone, Copy, Debug, PartialEq, Eq)]
pub enum Form {
    /// Windows file times, the ticks of 100 nanoseconds since 1601: `116444736000000000`.
    FileTime,
    /// Date-times of ISO 8601: `2015-06-26T16:43:23+02:00`. One without an offset is in UTC.
    IsoDateTime,
    /// Dates of ISO 8601: `2015-06-26`, `2015-W26-5` and `2015-177`.
    IsoDate,
    /// Durations of ISO 8601: `P1Y2M3DT4H5M6.007S` and `P5W`.
    IsoDuration,
    /// Date-times of TOML: `1979-05-27T07:32:00Z`, `1979-05-27T07:32:00`, `1979-05-27` and `07:32:00`.
    Toml,
    /// Short durations, as configuration files have them: `1h 20m 30s`.
    Fancy,
    /// PostgreSQL's intervals in style `iso_8601`: `P1Y2M3DT4H5M6S`.
    PgIso,
    /// PostgreSQL's intervals in style `postgres`: `1 year 2 mons 3 days 04:05:06`.
    Postgres,
    /// PostgreSQL's intervals in style `postgres_verbose`: `@ 1 year 2 mons 3 days 4 hours 5 mins 6 secs`.
    PgVerbose,
    /// PostgreSQL's intervals in style `sql_standard`: `+1-2 +3 +4:05:06`.
    PgSql,
    /// Intervals as in `PgIso`, with the units in one order and each once at most: `P1Y2M3W4DT5H6M7S`.
    IsoStrict,
    /// Unix time, the seconds since 1970 with at most nine digits behind the point: `1796167471.051677`.
    Unix,
    /// PostgreSQL's timestamps, with an offset, without one, or a day alone: `2026-12-01 23:24:31.051677+00`.
    PgTimestamp,
    /// Dates of HTTP: `Sun, 06 Nov 1994 08:49:37 GMT`.
    HttpDate,
    /// Dates of mail: `Sun, 6 Nov 1994 08:49:37 +0000`.
    MailDate,
    /// Durations of XML Schema, with one sign for the whole: `-P1Y2M3DT4H5M6.5S`.
    XsdDuration,
}

impl Form {
    /// The form of exactly this name, or None where it is no form's: `Form::by_name("PgIso")` is `Form::PgIso`.
    pub fn by_name(name: &str) -> Option<Form>
        ensures { (form : AnyForm) → (result ≡ Some form) ↔ (name.now ≡ name_of form) }
    {
        let (form, rest) = Form::named(name.as_bytes())?;
        match rest {
            None => Some(form),
            Some(_) => None,
        }
    }

    /// The form that the first word names, and what follows the space behind it.
    #[inline(always)]
    pub(crate) fn named(text: &[u8]) -> Option<(Form, Option<&[u8]>)>
        ensures found { IfSome result (λ r. IsNamed text.now r.0 (option_copied r.1)) }
        ensures none { IfNone result
            ((form : AnyForm) (rest : Option (List ℕ)) → ¬ (IsNamed text.now form rest)) }
    {
        // The first letter leaves four names at most.
        if begins(text, b'P') {
            return Form::named_by_p(text);
        }
        if begins(text, b'I') {
            return Form::named_by_i(text);
        }
        Form::named_by_another(text)
    }

    /// The same of the names that begin with a `P`.
    #[inline(always)]
    fn named_by_p(text: &[u8]) -> Option<(Form, Option<&[u8]>)>
        ensures found { IfSome result (λ r. IsNamed text.now r.0 (option_copied r.1)) }
        ensures none { IfNone result (HasNoneOf by_p text.now) }
    {
        // A word is one name at most, so any order would do.
        if let Some(rest) = Form::PgIso.after_name(text) {
            return Some((Form::PgIso, rest));
        }
        if let Some(rest) = Form::Postgres.after_name(text) {
            return Some((Form::Postgres, rest));
        }
        if let Some(rest) = Form::PgVerbose.after_name(text) {
            return Some((Form::PgVerbose, rest));
        }
        if let Some(rest) = Form::PgSql.after_name(text) {
            return Some((Form::PgSql, rest));
        }
        if let Some(rest) = Form::PgTimestamp.after_name(text) {
            return Some((Form::PgTimestamp, rest));
        }
        None
    }

    /// The same of the names that begin with an `I`.
    #[inline(always)]
    fn named_by_i(text: &[u8]) -> Option<(Form, Option<&[u8]>)>
        ensures found { IfSome result (λ r. IsNamed text.now r.0 (option_copied r.1)) }
        ensures none { IfNone result (HasNoneOf by_i text.now) }
    {
        if let Some(rest) = Form::IsoDateTime.after_name(text) {
            return Some((Form::IsoDateTime, rest));
        }
        if let Some(rest) = Form::IsoDuration.after_name(text) {
            return Some((Form::IsoDuration, rest));
        }
        if let Some(rest) = Form::IsoDate.after_name(text) {
            return Some((Form::IsoDate, rest));
        }
        if let Some(rest) = Form::IsoStrict.after_name(text) {
            return Some((Form::IsoStrict, rest));
        }
        None
    }

    /// The same of the names that begin with another letter.
    #[inline(always)]
    fn named_by_another(text: &[u8]) -> Option<(Form, Option<&[u8]>)>
        ensures found { IfSome result (λ r. IsNamed text.now r.0 (option_copied r.1)) }
        ensures none { IfNone result (HasNoneOf by_another text.now) }
    {
        if let Some(rest) = Form::FileTime.after_name(text) {
            return Some((Form::FileTime, rest));
        }
        if let Some(rest) = Form::Fancy.after_name(text) {
            return Some((Form::Fancy, rest));
        }
        if let Some(rest) = Form::Toml.after_name(text) {
            return Some((Form::Toml, rest));
        }
        if let Some(rest) = Form::Unix.after_name(text) {
            return Some((Form::Unix, rest));
        }
        if let Some(rest) = Form::HttpDate.after_name(text) {
            return Some((Form::HttpDate, rest));
        }
        if let Some(rest) = Form::MailDate.after_name(text) {
            return Some((Form::MailDate, rest));
        }
        if let Some(rest) = Form::XsdDuration.after_name(text) {
            return Some((Form::XsdDuration, rest));
        }
        None
    }

    /// What follows the form's name and the space behind it, or None where that isn't the first word.
    #[inline(always)]
    fn after_name(self, text: &[u8]) -> Option<Option<&[u8]>>
        ensures found { IfSome result (λ rest. IsNamed text.now self (option_copied rest)) }
        ensures none { IfNone result
            ((rest : Option (List ℕ)) → ¬ (IsNamed text.now self rest)) }
    {
        after_word(text, self.name().as_bytes())
    }

    /// The form's name, without blanks: `Form::PgIso.name()` is `PgIso`.
    pub fn name(self) -> &'static str
        ensures { result.now ≡ name_of self }
    {
        match self {
            Form::FileTime => "FileTime",
            Form::IsoDateTime => "IsoDateTime",
            Form::IsoDate => "IsoDate",
            Form::IsoDuration => "IsoDuration",
            Form::Toml => "Toml",
            Form::Fancy => "Fancy",
            Form::PgIso => "PgIso",
            Form::Postgres => "Postgres",
            Form::PgVerbose => "PgVerbose",
            Form::PgSql => "PgSql",
            Form::IsoStrict => "IsoStrict",
            Form::Unix => "Unix",
            Form::PgTimestamp => "PgTimestamp",
            Form::HttpDate => "HttpDate",
            Form::MailDate => "MailDate",
            Form::XsdDuration => "XsdDuration",
        }
    }

    /// The style of an interval form, or None exactly of the other forms: `Form::PgIso.style()` is `Some(Style::Iso)`.
    #[inline(always)]
    pub fn style(self) -> Option<Style>
        ensures { result ≡ style_of self }
    {
        match self {
            Form::PgIso => Some(Style::Iso),
            Form::Postgres => Some(Style::Postgres),
            Form::PgVerbose => Some(Style::Verbose),
            Form::PgSql => Some(Style::Sql),
            Form::IsoStrict => Some(Style::IsoStrict),
            _ => None,
        }
    }

    /// Whether the form's texts can be read by counted looks alone: those of the interval forms and ISO durations.
    pub fn is_counted(self) -> bool
        ensures { result ≡ is_counted self }
    {
        match self {
            Form::IsoDuration
            | Form::PgIso
            | Form::Postgres
            | Form::PgVerbose
            | Form::PgSql
            | Form::IsoStrict => true,
            _ => false,
        }
    }
}

/// Whether a text begins with this byte.
#[inline(always)]
fn begins(text: &[u8], byte: u8) -> bool
    ensures { IsTrue result ↔ Begins byte text.now }
{
    match text {
        [first, ..] => *first == byte,
        [] => false,
    }
}

/// What follows a word and the space behind it, or None where the text doesn't begin with this word. Tested byte by byte, words
/// that are known where this is compiled become a few tests of letters.
#[inline(always)]
fn after_word<'a>(text: &'a [u8], word: &[u8]) -> Option<Option<&'a [u8]>>
    ensures found { IfSome result (λ rest. text.now ≡ word.now ++ behind (option_copied rest)) }
    ensures none { IfNone result
        ((rest : Option (List ℕ)) → text.now ≢ word.now ++ behind rest) }
{
    if text.len() < word.len() {
        return None;
    }
    for i in 0..word.len() {
        if text[i] != word[i] {
            return None;
        }
    }
    match &text[word.len()..] {
        [] => Some(None),
        [b' ', rest @ ..] => Some(Some(rest)),
        _ => None,
    }
}

//! The `postgres_verbose` style: `@ 1 year 2 mons -3 days 4 hours 5 mins 6 secs ago`.
ghost use Rattle.std.specs.Prelude.{◌≡◌, ◌↔◌, ◌+◌, ◌*◌, ◌≤◌, ℕ, Ok, IfOk, IfErr, IsTrue, true, codes, length};
ghost use Rattle.scan_core.specs.Scanning.{ahead};
ghost use Rattle.pg_interval_2.specs.Denotes.{Denotes, Refuses};
ghost use Rattle.pg_interval_2.specs.Messages.{not_verbose};
ghost use Rattle.pg_interval_2.specs.Verbose.{IsVerbose, IsVerboseBadName};
ghost use Rattle.pg_interval_2.specs.inside.VerboseReading.{AnswersFront, RefusesFront, ends_solid};
ghost use Rattle.pg_interval_2.specs.declared.style.Style.TheVariants.{Verbose};
ghost use Rattle.pg_interval_2.specs.Styles.{Answers};

use crate::error::ParseError;
use crate::interval::Interval;
use crate::reading::ago::body_end;
use crate::reading::items::read_items;
use crate::reading::read;
use crate::reading::unit_names::NameSet;
use crate::style::Style;
use scan_core::{Looked, Scan, Steps};
use std::sync::ledger::Ledger;

/// What a refusal of a text that isn't in the style says.
const NOT_VERBOSE: &str = "not a verbose interval";

/// Whether a `0` and nothing else is left.
#[inline(always)]
fn is_zero(scan: &Scan<'_>) -> bool
    ensures { IsTrue result ↔ (ahead scan.now ≡ codes "0") }
{
    scan.peek() == Some(b'0') && scan.at() + 1 == scan.text().len()
}

/// The interval of the counts behind the `@` of a text without blanks at its end; each count is turned first where `ago`.
#[inline(always)]
fn read_behind_at<L: Ledger>(
    front: &Looked<'_>,
    ago: bool,
    steps: &mut Steps<L>,
) -> Result<Interval, ParseError>
    requires { ends_solid front.now ≡ true }
    ensures ok { IfOk result (λ t. AnswersFront front.now ago (Ok t)) }
    ensures err { IfErr result (RefusesFront front.now ago) }
    ensures most { steps.new ≤ steps.old + 2 * length front.now }
    ensures least { IfOk result (λ _. steps.old + length front.now ≤ steps.new) }
{
    let mut scan = Scan::new(front, steps);
    scan.blanks(steps);
    if !scan.next_if(b'@', steps) {
        return Err(ParseError::InvalidInterval(NOT_VERBOSE));
    }
    scan.blanks(steps);
    if is_zero(&scan) {
        return Ok(Interval::new(0, 0, 0));
    }
    read_items(NameSet::Verbose, ago, NOT_VERBOSE, &mut scan, steps)
}

/// What `Interval::from_postgres_verbose` answers, with at most two looks a byte and four more, and with one a byte at least
/// where it is Ok.
// a function of its own: where the style is named, `read_counted` is this call alone
#[inline(never)]
pub(crate) fn read_verbose<L: Ledger>(
    text: &Looked<'_>,
    steps: &mut Steps<L>,
) -> Result<Interval, ParseError>
    ensures ok { IfOk result (λ t. Denotes IsVerbose text.now t) }
    ensures err { IfErr result (λ e. Refuses IsVerbose IsVerboseBadName not_verbose text.now e) }
    ensures most { steps.new ≤ steps.old + (2 * length text.now + 4) }
    ensures least { IfOk result (λ _. steps.old + length text.now ≤ steps.new) }
{
    let body = body_end(text, steps);
    let front = text.up_to(body.end);
    read_behind_at(&front, body.ago, steps)
}

impl Interval {
    /// The interval that the text denotes in `postgres_verbose` style:
    /// `Interval::from_postgres_verbose("@ 1 year 2 mons -3 days ago")`. Behind the `@` stand items as in `postgres` style, with
    /// `min`, `mins`, `sec` and `secs` as further names, or `0`; where `ago` stands at the end, the sign of each is turned.
    ///
    /// `BadUnit` exactly where behind a number letters stand that name no unit or one that was counted before (an `ago` at the
    /// end is no part of them), and `InvalidInterval` exactly where the text isn't in the style for another reason; else
    /// `InvalidYearMonth`, `InvalidDay` or `InvalidTime` exactly where that part of a count, turned or not, or of the sum of all
    /// counts, is the first that leaves its type.
    pub fn from_postgres_verbose(text: &str) -> Result<Interval, ParseError>
        ensures { Answers Verbose text.now result }
    {
        read(Style::Verbose, &Looked::new(text))
    }
}

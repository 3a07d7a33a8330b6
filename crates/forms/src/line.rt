//! Lines and the requests in them.
ghost use Rattle.std.specs.Prelude.{◌≡◌, [], ◌++◌, codes, IfSome, IfNone, unwrap_or};
ghost use Rattle.std.specs.Option.{option_copied};
ghost use Rattle.forms.specs.inside.Requests.{HasNames, IsNoRequest};
ghost use Rattle.forms.specs.inside.Pieces.{NoFeed};

use crate::form::Form;
use memchr::memchr;

/// The first line that a line feed ends, and what follows the line feed, or None exactly where there is no line feed.
pub fn split_line(bytes: &[u8]) -> Option<(&[u8], &[u8])>
    ensures found { IfSome result (λ r.
        NoFeed r.0.now × (bytes.now ≡ r.0.now ++ (codes "\n" ++ r.1.now))) }
    ensures none { IfNone result (NoFeed bytes.now) }
{
    let end = memchr(b'\n', bytes)?;
    Some((&bytes[..end], &bytes[end + 1..]))
}

/// The two forms that a line names, and the text behind them by its bytes. None where the line is no request for want of names.
pub fn named_text(line: &[u8]) -> Option<(Form, Form, &[u8])>
    ensures found { IfSome result (λ r. HasNames line.now r.0 r.1 r.2.now) }
    ensures none { IfNone result (IsNoRequest line.now) }
{
    let (from, rest) = Form::named(line)?;
    let (to, end) = Form::named(rest?)?;
    Some((from, to, text_behind(end)))
}

/// The text that follows the names of a request.
#[inline(always)]
fn text_behind(end: Option<&[u8]>) -> &[u8]
    ensures { result.now ≡ unwrap_or (option_copied end.entry) [] }
{
    match end {
        Some(text) => text,
        None => &[],
    }
}

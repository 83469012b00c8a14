//! Content types.
ghost use Rattle.std.specs.Prelude.{◌≡◌, ◌==◌, ◌<◌, length, IfSome, option_copied};
ghost use Rattle.std.specs.List.{before_first, position};
ghost use Rattle.manifest_doc.specs.ContentTypes.{is_blank, trim_start, trim_end, media_type_in, is_same, may_type};

use reg_names::{Kind, Text};

/// Whether a Content-Type may stand beside a document of that kind: it tells the kind's media type, without regard to
/// ASCII case, or there is none. Parameters do not count (RFC 9110, section 8.3).
pub(crate) fn may_type(typed: Option<&Text>, kind: Kind) -> bool
    ensures { result ≡ may_type (option_copied typed.entry) kind }
{
    match typed {
        Some(typed) => is_same(
            media_type_in(typed.as_bytes()),
            kind.media_type().as_bytes(),
        ),
        None => true,
    }
}

fn is_same(one: &[u8], other: &[u8]) -> bool
    ensures { result ≡ is_same one.now other.now }
{
    one.eq_ignore_ascii_case(other)
}

fn media_type_in(typed: &[u8]) -> &[u8]
    ensures { result.now ≡ media_type_in typed.now }
{
    trim_end(trim_start(before_parameters(typed)))
}

fn before_parameters(typed: &[u8]) -> &[u8]
    ensures { result.now ≡ before_first (λ b. b == 59) typed.now }
{
    match semicolon_in(typed) {
        Some(at) => &typed[..at],
        None => typed,
    }
}

fn semicolon_in(typed: &[u8]) -> Option<usize>
    ensures place { result ≡ position (λ b. b == 59) typed.now }
    ensures within { IfSome result (λ at. at < length typed.now) }
{
    typed.iter().position(|b| *b == b';')
}

fn trim_start(text: &[u8]) -> &[u8]
    ensures { result.now ≡ trim_start text.now }
{
    let mut rest = text;
    while let Some((first, behind)) = rest.split_first() {
        if !is_blank(*first) {
            return rest;
        }
        rest = behind;
    }
    rest
}

fn trim_end(text: &[u8]) -> &[u8]
    ensures { result.now ≡ trim_end text.now }
{
    let mut rest = text;
    while let Some((last, before)) = rest.split_last() {
        if !is_blank(*last) {
            return rest;
        }
        rest = before;
    }
    rest
}

fn is_blank(byte: u8) -> bool
    ensures { result ≡ is_blank byte }
{
    byte == b' ' || byte == b'\t'
}

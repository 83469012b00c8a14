//! Targets of requests and their parts.
ghost use Rattle.std.specs.Prelude.{◌≡◌, ◌<◌, ◌==◌, length, Some, None, MatchOption, IfSome, option_map};
ghost use Rattle.std.specs.List.{position};
ghost use Rattle.reg_routes.specs.Targets.{cut_query, without_origin, from_slash, cut_last as cut_at_slash};
ghost use Rattle.reg_routes.specs.Targets.{shown, spot_at, spot_below, spot_in, upload_in};
ghost use Rattle.reg_routes.specs.Targets.{IsFree};

use reg_entries::Route;

/// What a path leads to: a route of a repository, whose name stands at `name`, and what stands
/// behind it: a reference, a digest or an id, or nothing. Names and keys are not read yet.
#[derive(Clone, Copy, Debug)]
pub(crate) struct Spot<'t> {
    pub(crate) route: Route,
    pub(crate) name: &'t [u8],
    pub(crate) key: &'t [u8],
}

/// The path of a target and its query, which stand on the two sides of its first `?`.
pub(crate) fn parts_of(target: &[u8]) -> (&[u8], &[u8])
    ensures path { result.0.now ≡ (cut_query target.now).0 }
    ensures query { result.1.now ≡ (cut_query target.now).1 }
{
    match find_byte(target, b'?') {
        Some(at) => (&target[..at], &target[at + 1..]),
        None => (target, &target[target.len()..]),
    }
}

/// The path without scheme and host.
pub(crate) fn path_in(path: &[u8]) -> &[u8]
    ensures { result.now ≡ without_origin path.now }
{
    if let Some(rest) = path.strip_prefix(b"http://".as_slice()) {
        behind_host(rest)
    } else if let Some(rest) = path.strip_prefix(b"https://".as_slice()) {
        behind_host(rest)
    } else {
        path
    }
}

// What stands from the first slash on.
fn behind_host(text: &[u8]) -> &[u8]
    ensures { result.now ≡ from_slash text.now }
{
    match find_byte(text, b'/') {
        Some(at) => &text[at..],
        None => &text[text.len()..],
    }
}

fn find_byte(bytes: &[u8], byte: u8) -> Option<usize>
    ensures place { result ≡ position (λ b. b == byte) bytes.now }
    ensures within { IfSome result (λ at. at < length bytes.now) }
{
    bytes.iter().position(|b| *b == byte)
}

/// Where a path leads to, by the table of routes.
pub(crate) fn spot_of(path: &[u8]) -> Option<Spot<'_>>
    ensures { option_map shown result ≡ spot_at path.now }
{
    if path == b"/v2".as_slice() || path == b"/v2/".as_slice() {
        let name = &path[path.len()..];
        return Some(Spot {
            route: Route::Base,
            name,
            key: name,
        });
    }
    repository_spot(path.strip_prefix(b"/v2/".as_slice())?)
}

// The route of a repository.
fn repository_spot(path: &[u8]) -> Option<Spot<'_>>
    ensures { option_map shown result ≡ spot_below path.now }
{
    let (front, last) = cut_last(path)?;
    let (name, kind) = cut_last(front)?;
    if kind == b"uploads".as_slice() {
        return upload_spot(name, last);
    }
    content_spot(name, kind, last)
}

// A route whose last segment but one is the kind.
fn content_spot<'t>(name: &'t [u8], kind: &[u8], last: &'t [u8]) -> Option<Spot<'t>>
    ensures { option_map shown result ≡ spot_in name.now kind.now last.now }
{
    let nothing = &last[last.len()..];
    let (route, key) = if kind == b"tags".as_slice() && last == b"list".as_slice() {
        (Route::Tags, nothing)
    } else if kind == b"manifests".as_slice() {
        (Route::Manifest, last)
    } else if kind == b"blobs".as_slice() && last == b"uploads".as_slice() {
        (Route::Uploads, nothing)
    } else if kind == b"blobs".as_slice() {
        (Route::Blob, last)
    } else {
        return None;
    };
    Some(Spot { route, name, key })
}

// A route of uploads: the name stands before `blobs`.
fn upload_spot<'t>(front: &'t [u8], last: &'t [u8]) -> Option<Spot<'t>>
    ensures { option_map shown result ≡ upload_in front.now last.now }
{
    let (name, folder) = cut_last(front)?;
    if folder != b"blobs".as_slice() {
        return None;
    }
    let route = if last.is_empty() {
        Route::Uploads
    } else {
        Route::Upload
    };
    Some(Spot {
        route,
        name,
        key: last,
    })
}

// What stands before and behind the last slash.
fn cut_last(text: &[u8]) -> Option<(&[u8], &[u8])>
    ensures { MatchOption result (cut_at_slash text.now ≡ None)
        (λ p. cut_at_slash text.now ≡ Some (p.0.now, p.1.now)) }
{
    let mut end = text.len();
    while end > 0 {
        end -= 1;
        if text[end] == b'/' {
            return Some((&text[..end], &text[end + 1..]));
        }
    }
    None
}

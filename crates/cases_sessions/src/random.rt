//! Connections that are made up of pieces of requests.
use crate::runs::{once, once_by_bytes};
use crate::shelf::Shelf;
use depot_api::NoMemory;
use std::alloc::Global;
use std::str;

const PIECES: [&[u8]; 40] = [
    b"GET ",
    b"HEAD ",
    b"PUT ",
    b"POST ",
    b"PATCH ",
    b"DELETE ",
    b"/v2/",
    b"/v2/a/tags/list",
    b"/v2/a/tags/list?n=1&last=v",
    b"/v2/a/manifests/v1",
    b"/v2/a/manifests/",
    b"/v2/a/blobs/uploads/",
    b"/v2/a/blobs/sha256:2cf24dba5fb0a30e26e83b2ac5b9e29e1b161e5c1fa7425e73043362938b9824",
    b"/v2/b/blobs/sha256%3A",
    b"http://r/v2/",
    b" HTTP/1.1\r\n",
    b" HTTP/1.1\r\n",
    b" HTTP/1.1\r\n",
    b" HTTP/1.0\r\n",
    b" HTTP/1.1\n",
    b"Host: r\r\n",
    b"Connection: close\r\n",
    b"Connection: keep-alive, TE\r\n",
    b"Expect: 100-continue\r\n",
    b"Content-Length: 5\r\n",
    b"Content-Length: 4194305\r\n",
    b"Transfer-Encoding: chunked\r\n",
    b"Content-Range: 0-4\r\n",
    b"\r\n",
    b"\r\n",
    b"\r\n\r\n",
    b"\n",
    b"hello",
    b"5\r\nhello\r\n0\r\n\r\n",
    b"5\r\nhello\r\n",
    b"0\r\n\r\n",
    b"GET /v2/ HTTP/1.1\r\n\r\n",
    b"PUT /v2/a/manifests/v1 HTTP/1.1\r\nContent-Length: 5\r\n\r\nhello",
    b"\x00\xff",
    b"\x16\x03\x01",
];

/// Whether each of so many connections, from a seed, ends with status 0 or 10, has written nothing or replies, and ends
/// alike where its bytes come one by one. The text is `SEED COUNT`.
pub fn answer(alloc: Global, shelf: &Shelf, text: &[u8]) -> Result<Option<String>, NoMemory> {
    let Some((seed, count)) = str::from_utf8(text).ok().and_then(numbers) else {
        return Ok(None);
    };
    let mut dice = Dice { state: seed };
    for number in 0..count {
        let input = dice.connection(alloc)?;
        if !is_answered(alloc, shelf, &input)? {
            return Ok(Some(format!(in alloc; "not connection {number}")?));
        }
    }
    Ok(Some(String::from_str(alloc, "all")?))
}

fn numbers(text: &str) -> Option<(u64, u64)> {
    let (seed, count) = text.split_once(' ')?;
    Some((seed.parse().ok()?, count.parse().ok()?))
}

fn is_answered(alloc: Global, shelf: &Shelf, input: &[u8]) -> Result<bool, NoMemory> {
    let run = once(alloc, shelf, input)?;
    let written = run.out.written();
    Ok(
        (run.status == 0 || run.status == 10)
            && (written.is_empty() || written.starts_with(b"HTTP/1.1 "))
            && run.is(&once_by_bytes(alloc, shelf, input)?),
    )
}

// Numbers that follow each other without a visible order (xorshift).
#[derive(Clone, Copy)]
struct Dice {
    state: u64,
}

impl Dice {
    fn roll(&mut self, sides: usize) -> usize {
        self.state ^= self.state << 13;
        self.state ^= self.state >> 7;
        self.state ^= self.state << 17;
        (self.state % (sides as u64).max(1)) as usize
    }

    fn connection(&mut self, alloc: Global) -> Result<Vec<u8>, NoMemory> {
        let mut input = Vec::new(alloc);
        for _ in 0..self.roll(40) {
            if let Some(piece) = PIECES.get(self.roll(PIECES.len())) {
                input.extend_from_slice(piece)?;
            }
        }
        Ok(input)
    }
}

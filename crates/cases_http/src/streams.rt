//! Streams of requests.
use crate::sources::{Faults, source_of};
use depot_api::NoMemory;
use depot_api::memory::MemSource;
use http_wire::{
    BodyReader, BodyStep, Feed, Head, Heading, MALFORMED, TOO_LARGE, ends_connection, framing,
    read_body, read_head,
};
use std::alloc::Global;

/// The decoded bodies, each with a bar behind it, and how the requests end; and whether the read
/// behind the last byte was made needlessly, or its fault was not told.
pub fn answer(alloc: Global, bytes: &[u8]) -> Result<String, NoMemory> {
    let mut stream = Stream::new(alloc, bytes)?;
    let (words, due) = match stream.read_requests(alloc)? {
        Ending::Here(words) => (words, 0),
        Ending::AtEnd(words) => (words, 1),
    };
    let faults = Faults {
        met: stream.source.faults(),
        told: stream.told,
    };
    let text = String::from_utf8_lossy(alloc, &stream.text)?;
    Ok(format!(in alloc; "\"{text}\" {words}{}", faults.remark(alloc, due)?)?)
}

// How the requests end: by what has come, or where no more comes, which only a read behind the last
// byte can tell.
enum Ending {
    Here(&'static str),
    AtEnd(&'static str),
}

// More than the requests, and the steps of a body, of any stream here.
const MOST: usize = 64;

#[derive(Drop)]
struct Stream {
    source: MemSource,
    feed: Feed,
    text: Vec<u8>,
    // How often a fault of the source was told.
    told: u64,
}

impl Stream {
    fn new(alloc: Global, bytes: &[u8]) -> Result<Stream, NoMemory> {
        Ok(Stream {
            source: source_of(alloc, bytes)?,
            feed: Feed::new(alloc)?,
            text: Vec::new(alloc),
            told: 0,
        })
    }

    fn read_requests(&mut self, alloc: Global) -> Result<Ending, NoMemory> {
        for _ in 0..MOST {
            if let Some(ending) = self.read_request(alloc)? {
                return Ok(ending);
            }
        }
        Ok(Ending::Here("more requests"))
    }

    // Reads a request, or tells how they end.
    fn read_request(&mut self, alloc: Global) -> Result<Option<Ending>, NoMemory> {
        match read_head(alloc, &mut self.feed, &mut self.source) {
            Heading::Head(head) => self.read_behind(&head),
            Heading::End => Ok(Some(Ending::AtEnd("done"))),
            Heading::Cut => Ok(Some(Ending::AtEnd("cut in a head"))),
            Heading::Bad(MALFORMED) => Ok(Some(Ending::Here("malformed head"))),
            Heading::Bad(TOO_LARGE) => Ok(Some(Ending::Here("too large a head"))),
            Heading::Bad(_) | Heading::Long => Ok(Some(Ending::Here("refused"))),
            Heading::SourceFault => {
                self.told = self.told.saturating_add(1);
                Ok(None)
            }
            Heading::NoMemory => Err(NoMemory),
        }
    }

    // Reads the body behind a head, three bytes at a time.
    fn read_behind(&mut self, head: &Head) -> Result<Option<Ending>, NoMemory> {
        let mut body = BodyReader::new(framing(head));
        let mut buffer = [0; 3];
        for _ in 0..MOST {
            match read_body(&mut self.feed, &mut self.source, &mut body, &mut buffer) {
                BodyStep::Bytes(count) => self.text.extend_from_slice(&buffer[..count])?,
                BodyStep::End => return self.end_request(head),
                BodyStep::Cut => return Ok(Some(Ending::AtEnd("cut in a body"))),
                BodyStep::Bad => return Ok(Some(Ending::Here("malformed body"))),
                BodyStep::SourceFault => self.told = self.told.saturating_add(1),
                BodyStep::Long => return Ok(Some(Ending::Here("refused"))),
            }
        }
        Ok(Some(Ending::Here("more of a body")))
    }

    fn end_request(&mut self, head: &Head) -> Result<Option<Ending>, NoMemory> {
        self.text.push(b'|')?;
        if ends_connection(head) {
            Ok(Some(Ending::Here("closed")))
        } else {
            Ok(None)
        }
    }
}

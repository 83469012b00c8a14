//! HTTP/1.1 requests, read from a stream exactly, however it is cut (RFC 9110 and RFC 9112).
//! `read_head` reads a head, `framing` says where its body ends, `read_body` reads the decoded
//! body, and `take_body` stages it. Each answer is proved to be what the bytes are, over any source,
//! and each stream has one list of messages. The source is read only where what came before is not
//! enough. A session reads its requests so; nothing but a head and a stage takes memory.
#![tactic(auto)]

mod body;
mod feed;
mod fields;
mod framed;
mod head;
mod judge;
mod messages;
mod pieces;
mod questions;
mod reach;
mod reading;
mod reading_body;
mod stop;
mod taking;

pub use body::{BodyReader, BodyStep, BodyTaken};
pub use depot_api::{Bytes, NoMemory, Source, SourceFault, Stage, Text};
pub use feed::Feed;
pub use framed::framing;
pub use head::{Field, Framing, Head, Heading, MALFORMED, TOO_LARGE};
pub use messages::{
    calls_end_messages, calls_read_messages, messages_add_up, messages_are_one, messages_go_on,
    spellings_are_apart, streams_have_messages,
};
pub use questions::{content_type, ends_connection, expects_continue, range_start};
pub use reading::{heads_are_exact, read_head};
pub use reading_body::{bodies_are_exact, read_body, reads_add_up};
pub use taking::{limits_are_exact, limits_count_decoded_bytes, take_body, takings_add_up};

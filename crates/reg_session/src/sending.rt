//! Blobs that are sent.
ghost use Rattle.std.specs.Prelude.{◌≡◌, ◌<◌, [], length, IsErr};
ghost use Rattle.reg_names.specs.Cause.{HasCause};
ghost use Rattle.reg_session.specs.Sending.{SendsBlob};
ghost use Rattle.reg_session.specs.InnerSending.{PutsFirst};
ghost use Rattle.reg_session.specs.declared.sending.Sent.TheVariants as sent;

use depot_api::{Blob, BlobFault, Sink};
use reg_replies::write_all;

/// How far a blob was sent.
#[derive(Clone, Copy, Debug, PartialEq, Eq)]
pub enum Sent {
    Whole,
    /// The blob failed before its end, and its count of faults rose.
    BlobFault,
    /// The sink failed, and its count of faults rose.
    SinkFault,
}

/// Writes what is left of a blob, in pieces of at most as many bytes as `room` has. It takes no memory.
pub fn send_body<B: Blob, O: Sink>(blob: &mut B, sink: &mut O, room: &mut [u8]) -> Sent
    requires { 0 < length room.old }
    ensures took { SendsBlob (B.rest blob.old) [] (O.taken sink.old) (O.taken sink.new) result }
    ensures blob { HasCause (B.faults blob.old) (B.faults blob.new) (result ≡ sent.BlobFault) }
    ensures sink { HasCause (O.faults sink.old) (O.faults sink.new) (result ≡ sent.SinkFault) }
{
    while blob.left() > 0 {
        let Ok(length) = blob.read(room) else {
            return Sent::BlobFault;
        };
        if write_all(sink, &room[..length]).is_err() {
            return Sent::SinkFault;
        }
    }
    Sent::Whole
}

/// The same behind a head, which goes out in one write with the first piece where there is one and `room` has place
/// for both.
pub(crate) fn send_with_head<B: Blob, O: Sink>(
    head: &[u8],
    blob: &mut B,
    sink: &mut O,
    room: &mut [u8],
) -> Sent
    requires { 0 < length room.old }
    ensures took { SendsBlob (B.rest blob.old) head.now (O.taken sink.old) (O.taken sink.new)
        result }
    ensures blob { HasCause (B.faults blob.old) (B.faults blob.new) (result ≡ sent.BlobFault) }
    ensures sink { HasCause (O.faults sink.old) (O.faults sink.new) (result ≡ sent.SinkFault) }
{
    if blob.left() == 0 || head.len() >= room.len() {
        return send_apart(head, blob, sink, room);
    }
    match first_piece(head, blob, room) {
        Ok(length) => {
            if write_all(sink, &room[..length]).is_err() {
                return Sent::SinkFault;
            }
            send_body(blob, sink, room)
        }
        Err(BlobFault) => match write_all(sink, head) {
            Ok(()) => Sent::BlobFault,
            Err(_) => Sent::SinkFault,
        },
    }
}

// The head in a write of its own.
fn send_apart<B: Blob, O: Sink>(head: &[u8], blob: &mut B, sink: &mut O, room: &mut [u8]) -> Sent
    requires { 0 < length room.old }
    ensures took { SendsBlob (B.rest blob.old) head.now (O.taken sink.old) (O.taken sink.new)
        result }
    ensures blob { HasCause (B.faults blob.old) (B.faults blob.new) (result ≡ sent.BlobFault) }
    ensures sink { HasCause (O.faults sink.old) (O.faults sink.new) (result ≡ sent.SinkFault) }
{
    let _ = blob.left();
    if write_all(sink, head).is_err() {
        return Sent::SinkFault;
    }
    send_body(blob, sink, room)
}

// Puts the head and the first bytes of a blob into the front of the room, and answers how many bytes that are.
fn first_piece<B: Blob>(head: &[u8], blob: &mut B, room: &mut [u8]) -> Result<usize, BlobFault>
    requires { length head.now < length room.old }
    ensures piece { PutsFirst head.now (B.rest blob.old) (B.rest blob.new) room.new result }
    ensures size { length room.new ≡ length room.old }
    ensures cause { HasCause (B.faults blob.old) (B.faults blob.new) (IsErr result) }
{
    room[..head.len()].copy_from_slice(head);
    let count = blob.read(&mut room[head.len()..])?;
    Ok(head.len() + count)
}

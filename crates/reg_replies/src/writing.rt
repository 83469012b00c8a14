//! Writing to a sink.
ghost use Rattle.std.specs.Prelude.{◌≡◌, IsErr, false};
ghost use Rattle.reg_names.specs.Cause.{HasCause};
ghost use Rattle.reg_replies.specs.Writing.{Sends, memory_wire};

use depot_api::{Sink, SinkFault};

/// The reply for want of memory, which ends the connection. It takes no memory.
pub fn no_memory(head_only: bool) -> &'static str
    ensures { result.now ≡ memory_wire head_only }
{
    if head_only {
        "HTTP/1.1 507 Insufficient Storage\r\n\
         Docker-Distribution-Api-Version: registry/2.0\r\n\
         Content-Type: application/json\r\n\
         Content-Length: 69\r\n\
         Connection: close\r\n\
         \r\n"
    } else {
        "HTTP/1.1 507 Insufficient Storage\r\n\
         Docker-Distribution-Api-Version: registry/2.0\r\n\
         Content-Type: application/json\r\n\
         Content-Length: 69\r\n\
         Connection: close\r\n\
         \r\n\
         {\"errors\":[{\"code\":\"NO_MEMORY\",\"detail\":null,\"message\":\"no memory\"}]}"
    }
}

/// Writes the reply for want of memory, which ends the connection. It takes no memory.
///
/// Errors: `SinkFault` where the sink's count of faults rose. It took a front of the reply.
pub fn write_no_memory<O: Sink>(sink: &mut O) -> Result<(), SinkFault>
    ensures took { Sends (O.taken sink.old) (O.taken sink.new) (memory_wire false) result }
    ensures cause { HasCause (O.faults sink.old) (O.faults sink.new) (IsErr result) }
{
    write_all(sink, no_memory(false).as_bytes())
}

/// Writes all of a text. It takes no memory.
///
/// Errors: `SinkFault` where the sink's count of faults rose. It took a front of the text.
pub fn write_all<O: Sink>(sink: &mut O, text: &[u8]) -> Result<(), SinkFault>
    ensures took { Sends (O.taken sink.old) (O.taken sink.new) text.now result }
    ensures cause { HasCause (O.faults sink.old) (O.faults sink.new) (IsErr result) }
{
    let mut written = 0;
    while written < text.len() {
        written += sink.write(&text[written..])?;
    }
    Ok(())
}

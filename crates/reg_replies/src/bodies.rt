//! Bodies in JSON.
ghost use Rattle.std.specs.Prelude.{◌≡◌, codes, IfOk};
ghost use Rattle.std.specs.List.{join_by};
ghost use Rattle.json.specs.Print.{quoted};
ghost use Rattle.serde_json.specs.Written.{compact_text};
ghost use Rattle.serde_json.specs.View.{view};
ghost use Rattle.reg_replies.specs.Json.{detail_json, error_json, refusal_json, tags_json};
ghost use Rattle.reg_replies.specs.Replies.{body_of};
ghost use Rattle.reg_replies.specs.InnerBodies.{IsSpelled};
ghost use Rattle.reg_replies.specs.InnerPushing.{Puts, Spells};

use crate::refusals::{Row, row_of};
use reg_entries::numbers::{METHOD_NOT_ALLOWED, WRONG_START};
use reg_entries::{Detail, Reply, Tags};
use reg_names::{Name, NoMemory, Tag};
use serde_json::{Value, json};
use std::alloc::{AllocError, Global};

/// The body of a reply that has no manifest.
pub(crate) fn written_body(alloc: Global, reply: &Reply) -> Result<String, NoMemory>
    requires { IsSpelled reply.now }
    ensures { Spells result (body_of reply.now) }
{
    match reply {
        Reply::Base => Ok(String::from_str(alloc, "{}")?),
        Reply::Tags { name, tags, .. } => tags_text(alloc, name, tags),
        Reply::WrongStart { offset, .. } => {
            refusal_text(alloc, WRONG_START, &Detail::Number(*offset))
        }
        Reply::NotAllowed { .. } => refusal_text(alloc, METHOD_NOT_ALLOWED, &Detail::Nothing),
        Reply::Refused(no) => refusal_text(alloc, no.number, &no.detail),
        _ => Ok(String::new(alloc)),
    }
}

fn refusal_text(alloc: Global, number: u8, detail: &Detail) -> Result<String, NoMemory>
    ensures { Spells result (compact_text (refusal_json number detail.now)) }
{
    let value = refusal_value(alloc, number, detail)?;
    Ok(value.to_string(alloc)?)
}

fn refusal_value(alloc: Global, number: u8, detail: &Detail) -> Result<Value, NoMemory>
    ensures { IfOk result (λ v. view v ≡ refusal_json number detail.now) }
{
    let detail = detail_value(alloc, detail)?;
    let error = error_value(alloc, row_of(number), &detail)?;
    Ok(json!(in alloc; {"errors": [&error]})?)
}

fn error_value(alloc: Global, row: Row, detail: &Value) -> Result<Value, AllocError>
    ensures { IfOk result
        (λ v. view v ≡ error_json row.code.now (view detail.now) row.message.now) }
{
    let (code, message) = (row.code, row.message);
    json!(in alloc; {"code": code, "detail": detail, "message": message})
}

fn detail_value(alloc: Global, detail: &Detail) -> Result<Value, NoMemory>
    ensures { IfOk result (λ v. view v ≡ detail_json detail.now) }
{
    match detail {
        Detail::Nothing => Ok(Value::Null),
        Detail::Number(number) => Ok(Value::from(*number)),
        Detail::Word(text) => Ok(Value::String(String::from_str(alloc, text.as_str())?)),
    }
}

// The text is written without the value: a list may be long.
fn tags_text(alloc: Global, name: &Name, tags: &Tags) -> Result<String, NoMemory>
    ensures { Spells result (compact_text (tags_json name.now tags.now)) }
{
    let name = name.as_str();
    let mut text = format!(in alloc; "{{\"name\":\"{name}\",\"tags\":[")?;
    push_listed(&mut text, tags.as_slice())?;
    text.push_str("]}")?;
    Ok(text)
}

// Puts tags behind a text, as JSON strings with commas between them.
fn push_listed(text: &mut String, tags: &[Tag]) -> Result<(), NoMemory>
    ensures { Puts result text.old text.new (join_by quoted (codes ",") tags.now) }
{
    let mut comma = "";
    for tag in tags {
        text.push_str(comma)?;
        push_quoted(text, tag)?;
        comma = ",";
    }
    Ok(())
}

// Puts a tag behind a text, as a JSON string.
fn push_quoted(text: &mut String, tag: &Tag) -> Result<(), NoMemory>
    ensures { Puts result text.old text.new (quoted tag.now) }
{
    let tag = tag.as_str();
    Ok(write!(text, "\"{tag}\"")?)
}

//! Replies of the DevTools protocol's Profiler domain.
ghost use Rattle.std.specs.Prelude.{◌≡◌, Option, None, Some, string_bytes, IfOk};
ghost use Rattle.serde_json.specs.View.{view};
ghost use Rattle.cov_messages.specs.Replies as spec;

use crate::request::ErrorCode;
use crate::scripts_value;
use cov_model::Snapshot;
use serde_json::{Value, json};
use std::alloc::{AllocError, Global};

/// What a request is answered.
#[derive(Debug, Drop)]
pub enum Reply {
    /// It was done, and there is nothing to tell.
    Done,
    /// Precise coverage was started. Its timestamp is told as 0.
    Started,
    /// The coverage that was taken. Its timestamp is told as 0.
    Taken(Snapshot),
    /// It was refused.
    Refused(ErrorCode),
}

/// The text of a reply: the compact JSON of an object with the request's `id`, where it has one, and `result`, or `error` with a
/// code and a message. An `AllocError` comes only for want of memory.
pub fn reply_text(alloc: Global, id: Option<u64>, reply: &Reply) -> Result<String, AllocError>
    ensures { IfOk result (λ text. string_bytes text ≡ spec.reply_text id reply.now) }
{
    let value = reply_value(alloc, id, reply)?;
    let text = value.to_string(alloc)?;
    Ok(text)
}

fn reply_value(alloc: Global, id: Option<u64>, reply: &Reply) -> Result<Value, AllocError>
    ensures { IfOk result (λ value. view value ≡ spec.reply_data id reply.now) }
{
    match reply {
        Reply::Done => {
            let told = json!(in alloc; {})?;
            with_result(alloc, id, told)
        }
        Reply::Started => {
            let told = json!(in alloc; {"timestamp": 0})?;
            with_result(alloc, id, told)
        }
        Reply::Taken(snapshot) => {
            let told = taken_value(alloc, snapshot)?;
            with_result(alloc, id, told)
        }
        Reply::Refused(code) => with_error(alloc, id, *code),
    }
}

fn taken_value(alloc: Global, snapshot: &Snapshot) -> Result<Value, AllocError>
    ensures { IfOk result (λ value. view value ≡ spec.taken_data snapshot.now) }
{
    let scripts = scripts_value(alloc, snapshot)?;
    json!(in alloc; {"result": scripts, "timestamp": 0})
}

fn with_result(alloc: Global, id: Option<u64>, told: Value) -> Result<Value, AllocError>
    ensures { IfOk result (λ value. view value ≡ spec.result_with id (view told)) }
{
    match id {
        Some(id) => json!(in alloc; {"id": id, "result": told}),
        None => json!(in alloc; {"result": told}),
    }
}

fn with_error(alloc: Global, id: Option<u64>, code: ErrorCode) -> Result<Value, AllocError>
    ensures { IfOk result (λ value. view value ≡ spec.error_with id code) }
{
    let error = error_value(alloc, code)?;
    match id {
        Some(id) => json!(in alloc; {"error": error, "id": id}),
        None => json!(in alloc; {"error": error}),
    }
}

fn error_value(alloc: Global, code: ErrorCode) -> Result<Value, AllocError>
    ensures { IfOk result (λ value. view value ≡ spec.error_data code) }
{
    match code {
        ErrorCode::Parse => json!(in alloc; {"code": -32700, "message": "Parse error"}),
        ErrorCode::Invalid => json!(in alloc; {"code": -32600, "message": "Invalid request"}),
        ErrorCode::NoMethod => json!(in alloc; {"code": -32601, "message": "Method not found"}),
        ErrorCode::BadParams => json!(in alloc; {"code": -32602, "message": "Invalid params"}),
        ErrorCode::NotEnabled =>
            json!(in alloc; {"code": -32000, "message": "Profiler is not enabled."}),
        ErrorCode::NotStarted => json!(in alloc; {
            "code": -32000,
            "message": "Precise coverage has not been started."
        }),
    }
}

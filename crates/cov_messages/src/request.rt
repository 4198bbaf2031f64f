//! Requests of the DevTools protocol's Profiler domain.
ghost use Rattle.std.specs.Prelude.{◌≡◌, codes, option_and_then, string_bytes, IfOk};
ghost use Rattle.serde_json.specs.View.{view};
ghost use Rattle.serde_json.specs.Find.{get, as_str};
ghost use Rattle.cov_messages.specs.Requests as spec;

use serde_json::{Value, json};
use std::alloc::{AllocError, Global};

/// How precise coverage is started: the parameters of `Profiler.startPreciseCoverage`. One that is left out is false.
#[derive(Clone, Copy, Debug, PartialEq, Eq)]
pub struct Flags {
    /// Whether calls are counted, or only told from none (`callCount`).
    pub call_count: bool,
    /// Whether there are counts of blocks, or of functions alone (`detailed`).
    pub detailed: bool,
    /// Whether updates may come unasked (`allowTriggeredUpdates`). Nothing depends on it here.
    pub triggered: bool,
}

/// What a client asks of the Profiler domain.
#[derive(Clone, Copy, Debug, PartialEq, Eq)]
pub enum Command {
    /// `Profiler.enable`
    Enable,
    /// `Profiler.disable`
    Disable,
    /// `Profiler.startPreciseCoverage`
    Start(Flags),
    /// `Profiler.takePreciseCoverage`
    Take,
    /// `Profiler.stopPreciseCoverage`
    Stop,
}

/// Why a request is refused: the codes of JSON-RPC 2.0 from -32700 on, and -32000 for the two of the domain.
#[derive(Clone, Copy, Debug, PartialEq, Eq)]
pub enum ErrorCode {
    /// The text is no JSON: -32700.
    Parse,
    /// It is no object with a number and a method: -32600.
    Invalid,
    /// The method is none of the five: -32601.
    NoMethod,
    /// The parameters are no object, or a flag is no boolean: -32602.
    BadParams,
    /// The domain is not enabled: -32000.
    NotEnabled,
    /// Precise coverage was not started: -32000.
    NotStarted,
}

/// What a request asks for, or why it is refused before it is judged by a target.
#[derive(Clone, Copy, Debug, PartialEq, Eq)]
pub enum Body {
    Command(Command),
    Refused(ErrorCode),
}

/// A request: its number, where it has one that is a whole number below 2^64, and what it asks for.
#[derive(Clone, Copy, Debug, PartialEq, Eq)]
pub struct Request {
    pub id: Option<u64>,
    pub body: Body,
}

/// The request that a text is. A text that is none is refused by the first check that it fails: it is JSON, it is an object
/// with a number `id` and a string `method`, the method is one of the five of the domain, `params` is left out or an object
/// whose flags are booleans. Other members are passed over. An `AllocError` comes only for want of memory.
pub fn request_of(alloc: Global, text: &str) -> Result<Request, AllocError>
    ensures { IfOk result (λ request. request ≡ spec.request_of text.now) }
{
    match Value::from_str(alloc, text) {
        Ok(value) => Ok(request_in(&value)),
        Err(error) if error.is_memory() => Err(AllocError),
        Err(_) => Ok(Request {
            id: None,
            body: Body::Refused(ErrorCode::Parse),
        }),
    }
}

/// The number of a message: a whole number below 2^64.
pub fn id_of(value: &Value) -> Option<u64>
    ensures { result ≡ spec.id_of (view value.now) }
{
    value.get("id").and_then(Value::as_u64)
}

fn request_in(value: &Value) -> Request
    ensures { result ≡ spec.request_in (view value.now) }
{
    let id = id_of(value);
    let body = body_in(id, value);
    Request { id, body }
}

fn body_in(id: Option<u64>, value: &Value) -> Body
    ensures { result ≡ spec.body_with id (option_and_then as_str (get (codes "method") (view value.now)))
        (get (codes "params") (view value.now)) }
{
    if id.is_none() {
        return Body::Refused(ErrorCode::Invalid);
    }
    match value.get("method").and_then(Value::as_str) {
        Some(method) => body_of(method, value),
        None => Body::Refused(ErrorCode::Invalid),
    }
}

fn body_of(method: &str, value: &Value) -> Body
    ensures { result ≡ spec.body_of method.now (get (codes "params") (view value.now)) }
{
    if method == "Profiler.enable" {
        return plain(Command::Enable, value);
    }
    if method == "Profiler.disable" {
        return plain(Command::Disable, value);
    }
    if method == "Profiler.startPreciseCoverage" {
        return started(value);
    }
    if method == "Profiler.takePreciseCoverage" {
        return plain(Command::Take, value);
    }
    if method == "Profiler.stopPreciseCoverage" {
        return plain(Command::Stop, value);
    }
    Body::Refused(ErrorCode::NoMethod)
}

// The parameters are left out, or an object.
fn has_params(value: &Value) -> bool
    ensures { result ≡ spec.are_params (get (codes "params") (view value.now)) }
{
    match value.get("params") {
        None => true,
        Some(params) => params.is_object(),
    }
}

fn plain(command: Command, value: &Value) -> Body
    ensures { result ≡ spec.plain command (get (codes "params") (view value.now)) }
{
    if has_params(value) {
        Body::Command(command)
    } else {
        Body::Refused(ErrorCode::BadParams)
    }
}

// A flag of the parameters, false where it is left out.
fn flag_of(key: &str, value: &Value) -> Option<bool>
    ensures { result ≡ spec.flag_of key.now (get (codes "params") (view value.now)) }
{
    match value.get("params").and_then(|params| params.get(key)) {
        None => Some(false),
        Some(flag) => flag.as_bool(),
    }
}

fn flags_of(value: &Value) -> Option<Flags>
    ensures { result ≡ spec.flags_of (get (codes "params") (view value.now)) }
{
    let call_count = flag_of("callCount", value)?;
    let detailed = flag_of("detailed", value)?;
    let triggered = flag_of("allowTriggeredUpdates", value)?;
    Some(Flags {
        call_count,
        detailed,
        triggered,
    })
}

fn started(value: &Value) -> Body
    ensures { result ≡ spec.started (get (codes "params") (view value.now)) }
{
    if !has_params(value) {
        return Body::Refused(ErrorCode::BadParams);
    }
    match flags_of(value) {
        Some(flags) => Body::Command(Command::Start(flags)),
        None => Body::Refused(ErrorCode::BadParams),
    }
}

/// The text of a request: the compact JSON of an object with `id`, `method` and, for a start, `params` with all three flags.
/// An `AllocError` comes only for want of memory.
pub fn request_text(alloc: Global, id: u64, command: &Command) -> Result<String, AllocError>
    ensures { IfOk result (λ text. string_bytes text ≡ spec.request_text id command.now) }
{
    let value = request_value(alloc, id, command)?;
    let text = value.to_string(alloc)?;
    Ok(text)
}

fn request_value(alloc: Global, id: u64, command: &Command) -> Result<Value, AllocError>
    ensures { IfOk result (λ value. view value ≡ spec.request_data id command.now) }
{
    match command {
        Command::Enable => json!(in alloc; {"id": id, "method": "Profiler.enable"}),
        Command::Disable => json!(in alloc; {"id": id, "method": "Profiler.disable"}),
        Command::Start(flags) => start_value(alloc, id, *flags),
        Command::Take => json!(in alloc; {"id": id, "method": "Profiler.takePreciseCoverage"}),
        Command::Stop => json!(in alloc; {"id": id, "method": "Profiler.stopPreciseCoverage"}),
    }
}

fn start_value(alloc: Global, id: u64, flags: Flags) -> Result<Value, AllocError>
    ensures { IfOk result (λ value. view value ≡ spec.request_data id (Command.Start flags)) }
{
    json!(in alloc; {
        "id": id,
        "method": "Profiler.startPreciseCoverage",
        "params": {
            "allowTriggeredUpdates": flags.triggered,
            "callCount": flags.call_count,
            "detailed": flags.detailed
        }
    })
}

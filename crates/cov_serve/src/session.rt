//! A session over a link.
ghost use Rattle.std.specs.Prelude.{◌≡◌, ◌++◌, [], true, false, if◌then◌else◌, IfOk, OnOk, OnErr};
ghost use Rattle.std.specs.Option.{option_to_list};
ghost use Rattle.cov_io.specs.declared.link.LinkFault.TheVariants.{Failed};
ghost use Rattle.cov_io.specs.Causes.{HasCause};
ghost use Rattle.cov_io.specs.Links.{LinkState};
ghost use Rattle.cov_io.specs.Told.{WhereTold};
ghost use Rattle.cov_messages.specs.Requests as requests;
ghost use Rattle.cov_session.specs.Kept.{is_proper};
ghost use Rattle.cov_serve.specs.Seats.{Gains, Seated};
ghost use Rattle.cov_serve.specs.Answering.{IsAnswered, Went, desk_after_body, judged_body};
ghost use Rattle.cov_serve.specs.Going.{Going, Sends};

use crate::{Seat, SharedTarget, Show, Stepped, next_desk};
use cov_io::{Got, Link, LinkFault};
use cov_messages::{Body, Reply, reply_text, request_of};
use cov_model::Items;
use cov_session::{Desk, Take};
use std::alloc::{AllocError, Global};
use std::sync::Wait;
use std::sync::ledger::Ledger;

/// Serves one session: each text that comes over the link is answered by one text, until the link is closed. A text that is no
/// request is refused; a command is answered by the desk that this session's earlier commands leave. The answer is the session's takes
/// whose replies were sent, in order. The session leaves at the end, whatever comes.
///
/// `Failed` comes only where the link failed; `NoMemory` only for want of memory. After a fault the takes stay in the shares.
pub fn serve_session<N: Show, A: Ledger, B: Ledger, C: Ledger, L: Link, R: Wait>(
    rt: &R,
    alloc: Global,
    link: &mut L,
    shared: &SharedTarget<N, A, B, C>,
    seat: &mut Seat<N, A, B, C>,
) -> Result<Items<Take>, LinkFault>
    ensures went { IfOk result (λ takes. Went N.tape N.pace seat.old.session (L.state link.old) (L.state link.new) takes) }
    ensures all { OnOk result (WhereTold (L.state link.new).coming (λ texts. texts ≡ [])) }
    ensures closed { OnOk result ((L.state link.new).closed ≡ true) }
    ensures open { OnErr result ((L.state link.new).closed ≡ (L.state link.old).closed) }
    ensures gains { IfOk result (λ takes. Gains seat.old seat.new takes) }
    ensures session { seat.new.session ≡ seat.old.session }
    ensures cause { HasCause Failed (L.faults link.old) (L.faults link.new) result }
{
    let takes = serve_texts(rt, alloc, link, shared, seat);
    shared.leave(rt, seat);
    takes
}

fn serve_texts<N: Show, A: Ledger, B: Ledger, C: Ledger, L: Link, R: Wait>(
    rt: &R,
    alloc: Global,
    link: &mut L,
    shared: &SharedTarget<N, A, B, C>,
    seat: &mut Seat<N, A, B, C>,
) -> Result<Items<Take>, LinkFault>
    ensures went { IfOk result (λ takes. Went N.tape N.pace seat.old.session (L.state link.old) (L.state link.new) takes) }
    ensures all { OnOk result (WhereTold (L.state link.new).coming (λ texts. texts ≡ [])) }
    ensures closed { OnOk result ((L.state link.new).closed ≡ true) }
    ensures open { OnErr result ((L.state link.new).closed ≡ (L.state link.old).closed) }
    ensures gains { IfOk result (λ takes. Gains seat.old seat.new takes) }
    ensures session { seat.new.session ≡ seat.old.session }
    ensures cause { HasCause Failed (L.faults link.old) (L.faults link.new) result }
{
    let mut desk = Desk {
        enabled: false,
        started: None,
    };
    let mut takes = Items::new(alloc);
    for _ in rt.forever() {
        if !serve_text(rt, alloc, link, shared, seat, &mut desk, &mut takes)? {
            return Ok(takes);
        }
    }
    unreachable!()
}

// One text is received and answered, or the link is closed.
fn serve_text<N: Show, A: Ledger, B: Ledger, C: Ledger, L: Link, R: Wait>(
    rt: &R,
    alloc: Global,
    link: &mut L,
    shared: &SharedTarget<N, A, B, C>,
    seat: &mut Seat<N, A, B, C>,
    desk: &mut Desk,
    takes: &mut Items<Take>,
) -> Result<bool, LinkFault>
    requires proper { is_proper desk.old ≡ true }
    ensures going { (first : Seated) (before : LinkState)
        → Going N.tape N.pace first seat.old before (L.state link.old) desk.old takes.old
        → OnOk result (Going N.tape N.pace first seat.new before (L.state link.new) desk.new takes.new) }
    ensures all { IfOk result (λ more. more ≡ false → WhereTold (L.state link.new).coming (λ texts. texts ≡ [])) }
    ensures closed { IfOk result (λ more. (L.state link.new).closed ≡ (if more then (L.state link.old).closed else true)) }
    ensures open { OnErr result ((L.state link.new).closed ≡ (L.state link.old).closed) }
    ensures session { seat.new.session ≡ seat.old.session }
    ensures cause { HasCause Failed (L.faults link.old) (L.faults link.new) result }
{
    match link.recv(alloc)? {
        Got::Closed => Ok(false),
        Got::Text(text) => {
            let take = answer(rt, alloc, link, shared, seat, desk, text.as_str())?;
            list(takes, take)?;
            Ok(true)
        }
    }
}

fn list(takes: &mut Items<Take>, take: Option<Take>) -> Result<(), AllocError>
    ensures { OnOk result (takes.new ≡ takes.old ++ option_to_list take) }
{
    match take {
        Some(take) => Ok(takes.push(take)?),
        None => Ok(()),
    }
}

// Answers a text that was received. The answer is the take, where it is one.
fn answer<N: Show, A: Ledger, B: Ledger, C: Ledger, L: Link, R: Wait>(
    rt: &R,
    alloc: Global,
    link: &mut L,
    shared: &SharedTarget<N, A, B, C>,
    seat: &mut Seat<N, A, B, C>,
    desk: &mut Desk,
    text: &str,
) -> Result<Option<Take>, LinkFault>
    requires proper { is_proper desk.old ≡ true }
    ensures sent { IfOk result (λ take. Sends N.tape N.pace seat.old.session desk.old (requests.request_of text.now) take
        (L.state link.old) (L.state link.new)) }
    ensures gains { IfOk result (λ take. Gains seat.old seat.new (option_to_list take)) }
    ensures desk { OnOk result (desk.new ≡ desk_after_body desk.old (requests.request_of text.now).body) }
    ensures proper { is_proper desk.new ≡ true }
    ensures closed { (L.state link.new).closed ≡ (L.state link.old).closed }
    ensures session { seat.new.session ≡ seat.old.session }
    ensures cause { HasCause Failed (L.faults link.old) (L.faults link.new) result }
{
    let request = request_of(alloc, text)?;
    let Stepped { reply, take } = judge(rt, alloc, shared, seat, desk, &request.body)?;
    let text = reply_text(alloc, request.id, &reply)?;
    link.send(alloc, text.as_str())?;
    Ok(take)
}

// What a request is answered by the desk, which goes on.
fn judge<N: Show, A: Ledger, B: Ledger, C: Ledger, R: Wait>(
    rt: &R,
    alloc: Global,
    shared: &SharedTarget<N, A, B, C>,
    seat: &mut Seat<N, A, B, C>,
    desk: &mut Desk,
    body: &Body,
) -> Result<Stepped, AllocError>
    requires proper { is_proper desk.old ≡ true }
    ensures answered { IfOk result (λ r. IsAnswered N.tape N.pace seat.old.session
        (judged_body desk.old body.now) r.reply r.take) }
    ensures gains { IfOk result (λ r. Gains seat.old seat.new (option_to_list r.take)) }
    ensures desk { OnOk result (desk.new ≡ desk_after_body desk.old body.now) }
    ensures proper { is_proper desk.new ≡ true }
    ensures session { seat.new.session ≡ seat.old.session }
{
    match body {
        Body::Command(command) => {
            let stepped = shared.step(rt, alloc, seat, desk, command)?;
            *desk = next_desk(desk, command);
            Ok(stepped)
        }
        Body::Refused(code) => Ok(Stepped {
            reply: Reply::Refused(*code),
            take: None,
        }),
    }
}

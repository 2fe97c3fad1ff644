//! What a step does to the two ends.

ghost use Rattle.duo_world.specs.Settling.{IsMidStep, IsSettled, side_with};
ghost use Rattle.duo_world.specs.Holding.{StandsForSide};
ghost use Rattle.duo_world.specs.Ranges.{IsCallInRange, IsMuxCallInRange};
ghost use Rattle.duo_world.specs.Stepping.{Calls, IsBetweenSteps, StepsAt, StepsIn};
ghost use Rattle.endpoint.specs.Value.{EndpointValue};
ghost use Rattle.endpoint_items.specs.Asked.{made_by};
ghost use Rattle.endpoint_items.specs.Items.{EndItem};
ghost use Rattle.endpoint_run.specs.Answers.{side_of};
ghost use Rattle.endpoint_run.specs.Midway.{all_applied};
ghost use Rattle.endpoint_run.specs.Run.{EndSide, EndWorld};
ghost use Rattle.mux_run.specs.Run.{RunSide, SideTerms, Terms, terms_at_a};
ghost use Rattle.mux_run.specs.declared.steps.Side.{Side};
ghost use Rattle.std.specs.Prelude.{◌≡◌, ℕ, List, OnOk, IfOk, is_none};
ghost use Rattle.wire_base.specs.States.{is_running_state};

use endpoint::{EndStep, Endpoint};
use endpoint_run::{Call, DuoAnswer, EventList, Reply, Side, SideEvent, Step};
use std::alloc::Global;
use wire_base::{EndState, OutOfMemory};

fn is_running(end: &Endpoint) -> bool
    ensures { result ≡ is_running_state end.now.state }
{
    match end.state() {
        EndState::Running => true,
        EndState::Ended(_) | EndState::Stopped => false,
    }
}

/// Applies, at an end that runs, what is whole of the bytes that it was given.
fn settle(own: &mut Endpoint, events: &mut EventList) -> Result<(), OutOfMemory>
    ensures { (w : SideTerms) (delivered older : ℕ) (items : List EndItem) (y : RunSide) → IsMidStep w delivered older own.old events.old items y →
        OnOk result (IsSettled w older own.new events.new (side_with (all_applied w delivered y items) delivered) y) }
{
    if !is_running(own) {
        return Ok(());
    }
    'steps: for _ in 0..u64::MAX {
        match own.step() {
            EndStep::Event(event) => events.push(SideEvent::Happened(event))?,
            EndStep::Short => return Ok(()),
            EndStep::Ended(cause) => {
                events.push(SideEvent::Ended(cause))?;
                return Ok(());
            }
            EndStep::Stopped | EndStep::OutOfMemory => return Err(OutOfMemory),
        }
    }
    // not reached: each step takes a byte at least, and an end is fed fewer
    Err(OutOfMemory)
}

/// Does nothing: that the parts of a call of a multiplexing end are in their ranges is said by their types.
fn note_mux_ranges(call: &mux_items::Call)
    ensures { IsMuxCallInRange call.now }
{
    match call {
        mux_items::Call::Offer(name, window) => {
            let _text = name.as_str();
            let _window = *window;
        }
        mux_items::Call::Accept(_, window) => {
            let _window = *window;
        }
        mux_items::Call::Read(_, max) => {
            let _max = *max;
        }
        mux_items::Call::Write(_, _)
        | mux_items::Call::Complete(_)
        | mux_items::Call::Terminate(_) => {}
    }
}

/// The same of a call of an end.
fn note_ranges(call: &Call)
    ensures { IsCallInRange call.now }
{
    match call {
        Call::Mux(call) => note_mux_ranges(call),
        Call::Attach(_, _)
        | Call::Request(_, _, _, _)
        | Call::Notify(_, _, _)
        | Call::Respond(_, _, _)
        | Call::Cancel(_, _)
        | Call::Report(_, _, _, _)
        | Call::TakeReport(_, _)
        | Call::Next(_, _)
        | Call::Abort(_, _)
        | Call::Invoke(_, _, _, _, _)
        | Call::Release(_, _)
        | Call::Outcome(_, _)
        | Call::Forget(_, _) => {}
    }
}

/// Makes a call at an end.
fn make_call(alloc: Global, own: &mut Endpoint, call: &Call) -> Result<Reply, OutOfMemory>
    ensures { (w : SideTerms) (x : EndSide) (y : RunSide) → StandsForSide w own.old x y → IfOk result (Calls w call.now own.new x y) }
{
    note_ranges(call);
    match own.apply(call.copy(alloc)?) {
        Reply::OutOfMemory => Err(OutOfMemory),
        reply => Ok(reply),
    }
}

/// Whether something is asked that changes nothing.
fn is_question(call: &Call) -> bool
    ensures { result ≡ is_none (made_by call.now) }
{
    matches!(call, Call::Outcome(_, _))
}

/// Makes a call at an end, and lets it apply what is whole.
fn call_at(alloc: Global, own: &mut Endpoint, call: &Call) -> Result<DuoAnswer, OutOfMemory>
    ensures { (w : SideTerms) (side : Side) (peer : EndpointValue) (x y : EndSide) → IsBetweenSteps w own.old peer x y →
        IfOk result (StepsAt w (Step.Call side call.now) own.new peer x y) }
{
    let mut events = EventList::new(alloc);
    let reply = make_call(alloc, own, call)?;
    if !is_question(call) {
        settle(own, &mut events)?;
    }
    Ok(DuoAnswer::Replied(reply, events))
}

/// Gives an end that runs the next bytes of the other's output, at most so many, and lets it apply what is whole.
fn deliver(
    alloc: Global,
    own: &mut Endpoint,
    peer: &mut Endpoint,
    n: u64,
) -> Result<DuoAnswer, OutOfMemory>
    ensures { (w : SideTerms) (side : Side) (x y : EndSide) → IsBetweenSteps w own.old peer.old x y →
        IfOk result (StepsAt w (Step.Deliver side n) own.new peer.new x y) }
{
    let mut events = EventList::new(alloc);
    if !is_running(own) {
        return Ok(DuoAnswer::Delivered(0, events));
    }
    let pending = peer.pending_output();
    let count = n.min(pending.len() as u64) as usize;
    match own.feed(&pending[..count])? {
        EndState::Running => {
            peer.took(count);
            settle(own, &mut events)?;
            Ok(DuoAnswer::Delivered(count as u64, events))
        }
        EndState::Ended(cause) => {
            events.push(SideEvent::Ended(cause))?;
            Ok(DuoAnswer::Delivered(0, events))
        }
        EndState::Stopped => Err(OutOfMemory),
    }
}

/// Makes a step at one side, whose end comes first.
fn step_at(
    alloc: Global,
    own: &mut Endpoint,
    peer: &mut Endpoint,
    step: &Step,
) -> Result<DuoAnswer, OutOfMemory>
    ensures { (w : SideTerms) (x y : EndSide) → IsBetweenSteps w own.old peer.old x y → IfOk result (StepsAt w step.now own.new peer.new x y) }
{
    match step {
        Step::Call(_, call) => call_at(alloc, own, call),
        Step::Deliver(_, n) => deliver(alloc, own, peer, *n),
        Step::End(_) => {
            own.end_of_input();
            Ok(DuoAnswer::Ended)
        }
    }
}

fn side_of(step: &Step) -> Side
    ensures { result ≡ side_of step.now }
{
    match step {
        Step::Call(side, _) | Step::Deliver(side, _) | Step::End(side) => *side,
    }
}

/// Makes a step at its side.
pub fn make_step(
    alloc: Global,
    a: &mut Endpoint,
    b: &mut Endpoint,
    step: &Step,
) -> Result<DuoAnswer, OutOfMemory>
    ensures { (terms : Terms) (w : EndWorld) → IsBetweenSteps (terms_at_a terms) a.old b.old w.a w.b → IfOk result (StepsIn terms step.now a.new b.new w) }
{
    match side_of(step) {
        Side::A => step_at(alloc, a, b, step),
        Side::B => step_at(alloc, b, a, step),
    }
}

//! What each word of a row does with an end, and what is answered then. Each call of an end stands alone in its function, so
//! that nothing that it promises is carried along by the others.

use crate::answers::{of_call, of_drawn, of_look, of_number, of_report, of_step, of_whole};
use row_text::{count, first, number, size, word};
use row_words::{call_of, handle_of, id_of, of_life, of_state, value};
use rpc_end::{Answer, Arguments, Expect, RpcEnd, RpcStep};
use std::alloc::Global;
use std::test::Fail;
use wire_base::{Cause, Datum, DatumList, EndState, Id, OutOfMemory, Text};

fn request(
    alloc: Global,
    end: &mut RpcEnd,
    method: &Text,
    args: Arguments,
    expect: Expect,
) -> Result<String, Fail> {
    of_drawn(alloc, end.request(method, args, expect))
}

fn asks(alloc: Global, end: &mut RpcEnd, words: &str, expect: Expect) -> Result<String, Fail> {
    let (method, args) = call_of(alloc, words)?;
    request(alloc, end, &method, args, expect)
}

fn notify(alloc: Global, end: &mut RpcEnd, method: &Text, args: Arguments) -> Result<String, Fail> {
    of_call(alloc, end.notify(method, args))
}

fn tells(alloc: Global, end: &mut RpcEnd, words: &str) -> Result<String, Fail> {
    let (method, args) = call_of(alloc, words)?;
    notify(alloc, end, &method, args)
}

fn invoke(
    alloc: Global,
    end: &mut RpcEnd,
    handle: u64,
    method: &Text,
    args: Arguments,
) -> Result<String, Fail> {
    of_drawn(alloc, end.invoke(handle, method, args, Expect::Plain))
}

/// The words are a handle of the peer, a method of its object, and arguments.
fn invokes(alloc: Global, end: &mut RpcEnd, words: &str) -> Result<String, Fail> {
    let (handle, words) = first(words);
    let (method, args) = call_of(alloc, words)?;
    invoke(alloc, end, count(handle), &method, args)
}

fn push_values(alloc: Global, list: &mut DatumList, words: &str) -> Result<(), Fail> {
    for word in words.split(' ') {
        if !word.is_empty() {
            list.push(value(alloc, word)?)?;
        }
    }
    Ok(())
}

/// The values that words stand for.
fn values(alloc: Global, words: &str) -> Result<DatumList, Fail> {
    let mut list = DatumList::new(alloc);
    push_values(alloc, &mut list, words)?;
    Ok(list)
}

/// The words are the size of a page, how many values come first, and all values.
fn in_pages(alloc: Global, words: &str) -> Result<Answer, Fail> {
    let (page, words) = first(words);
    let (early, words) = first(words);
    Ok(Answer::Sequence(values(alloc, words)?, size(page), size(early)))
}

fn fault(alloc: Global, code: i64) -> Result<Answer, Fail> {
    Ok(Answer::Fault(code, Text::from_str(alloc, "no")?, None))
}

/// What words behind the id of a request stand for.
fn answer_of(alloc: Global, name: &str, words: &str) -> Result<Answer, Fail> {
    match name {
        "pages" => in_pages(alloc, words),
        "gives" => Ok(Answer::Object(count(words))),
        "fails" => fault(alloc, number(words)),
        _ => Ok(Answer::Value(value(alloc, words)?)),
    }
}

fn respond(alloc: Global, end: &mut RpcEnd, id: &Id, answer: Answer) -> Result<String, Fail> {
    of_call(alloc, end.respond(id, answer))
}

fn answers(alloc: Global, end: &mut RpcEnd, name: &str, words: &str) -> Result<String, Fail> {
    let (id, words) = first(words);
    let id = id_of(alloc, id)?;
    respond(alloc, end, &id, answer_of(alloc, name, words)?)
}

fn report(
    alloc: Global,
    end: &mut RpcEnd,
    (id, token): (&Id, &Id),
    value: &Datum,
) -> Result<String, Fail> {
    of_call(alloc, end.report(id, token, value))
}

fn reports_on(
    alloc: Global,
    end: &mut RpcEnd,
    ids: (&Id, &Id),
    word: &str,
) -> Result<String, Fail> {
    let value = value(alloc, word)?;
    report(alloc, end, ids, &value)
}

/// The words are the id of a request, a token and a value.
fn reports(alloc: Global, end: &mut RpcEnd, words: &str) -> Result<String, Fail> {
    let (id, words) = first(words);
    let (token, word) = first(words);
    let (id, token) = (id_of(alloc, id)?, id_of(alloc, token)?);
    reports_on(alloc, end, (&id, &token), word)
}

fn takes(alloc: Global, end: &mut RpcEnd, n: u64) -> Result<String, Fail> {
    of_report(alloc, end.take_report(n))
}

fn cancels(alloc: Global, end: &mut RpcEnd, n: u64) -> Result<String, Fail> {
    of_call(alloc, end.cancel(n))
}

fn forgets(alloc: Global, end: &mut RpcEnd, n: u64) -> Result<String, Fail> {
    of_call(alloc, end.forget(n))
}

fn turns(alloc: Global, end: &mut RpcEnd, n: u64) -> Result<String, Fail> {
    of_drawn(alloc, end.next(n))
}

fn aborts(alloc: Global, end: &mut RpcEnd, n: u64) -> Result<String, Fail> {
    of_call(alloc, end.abort(n))
}

fn releases(alloc: Global, end: &mut RpcEnd, words: &str) -> Result<String, Fail> {
    of_call(alloc, end.release(handle_of(words)))
}

fn ends(alloc: Global, end: &mut RpcEnd) -> Result<String, Fail> {
    end.end(Cause::InputEnded);
    word(alloc, "ok")
}

fn stops(alloc: Global, end: &mut RpcEnd) -> Result<String, Fail> {
    end.starve();
    word(alloc, "ok")
}

fn feed(end: &mut RpcEnd, bytes: &[u8]) -> Result<EndState, OutOfMemory> {
    end.feed(bytes)
}

pub fn feeds(alloc: Global, end: &mut RpcEnd, bytes: &[u8]) -> Result<String, Fail> {
    match feed(end, bytes) {
        Ok(state) => of_state(alloc, state),
        Err(_) => word(alloc, "OutOfMemory"),
    }
}

fn step(end: &mut RpcEnd) -> RpcStep {
    end.step()
}

pub fn steps(alloc: Global, end: &mut RpcEnd) -> Result<String, Fail> {
    of_step(alloc, &step(end))
}

fn outcome(alloc: Global, end: &RpcEnd, n: u64) -> Result<String, Fail> {
    of_look(alloc, end.outcome(n))
}

fn last(alloc: Global, end: &RpcEnd) -> Result<String, Fail> {
    of_number(alloc, Some(end.last_request()))
}

fn last_handle(alloc: Global, end: &RpcEnd) -> Result<String, Fail> {
    of_number(alloc, Some(end.last_handle()))
}

fn handle(alloc: Global, end: &RpcEnd, words: &str) -> Result<String, Fail> {
    of_life(alloc, end.handle(handle_of(words)))
}

/// The handle at a place among those that were adopted.
fn adopted(alloc: Global, end: &RpcEnd, words: &str) -> Result<String, Fail> {
    of_number(alloc, end.peer_handle(size(words) as usize))
}

fn has_message(alloc: Global, end: &RpcEnd) -> Result<String, Fail> {
    of_whole(alloc, end.has_message())
}

fn state(alloc: Global, end: &RpcEnd) -> Result<String, Fail> {
    of_state(alloc, end.state())
}

/// What is seen of the end.
fn looks(alloc: Global, end: &RpcEnd, name: &str, words: &str) -> Result<String, Fail> {
    match name {
        "outcome" => outcome(alloc, end, count(words)),
        "last" => last(alloc, end),
        "last-handle" => last_handle(alloc, end),
        "handle" => handle(alloc, end, words),
        "adopted" => adopted(alloc, end, words),
        "has-message" => has_message(alloc, end),
        "state" => state(alloc, end),
        _ => word(alloc, "no such call"),
    }
}

/// What befalls the end.
fn befalls(alloc: Global, end: &mut RpcEnd, name: &str, words: &str) -> Result<String, Fail> {
    match name {
        "steps" => steps(alloc, end),
        "ends" => ends(alloc, end),
        "stops" => stops(alloc, end),
        _ => looks(alloc, end, name, words),
    }
}

/// What a call about objects answers.
fn objects_pass(alloc: Global, end: &mut RpcEnd, name: &str, words: &str) -> Result<String, Fail> {
    match name {
        "invokes" => invokes(alloc, end, words),
        "releases" => releases(alloc, end, words),
        _ => befalls(alloc, end, name, words),
    }
}

/// What a call about sequences answers.
fn pages_turn(alloc: Global, end: &mut RpcEnd, name: &str, words: &str) -> Result<String, Fail> {
    match name {
        "seeks" => asks(alloc, end, words, Expect::Sequence),
        "turns" => turns(alloc, end, count(words)),
        "aborts" => aborts(alloc, end, count(words)),
        _ => objects_pass(alloc, end, name, words),
    }
}

/// What this call answers.
pub fn happens(alloc: Global, end: &mut RpcEnd, call: &str) -> Result<String, Fail> {
    let (name, words) = first(call);
    match name {
        "asks" => asks(alloc, end, words, Expect::Plain),
        "tells" => tells(alloc, end, words),
        "answers" | "fails" | "pages" | "gives" => answers(alloc, end, name, words),
        "cancels" => cancels(alloc, end, count(words)),
        "reports" => reports(alloc, end, words),
        "takes" => takes(alloc, end, count(words)),
        "forgets" => forgets(alloc, end, count(words)),
        _ => pages_turn(alloc, end, name, words),
    }
}

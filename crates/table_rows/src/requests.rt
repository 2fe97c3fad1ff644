//! Worked requests.

use crate::answers::{of_check, of_fault, of_flag, of_number, of_refusal};
use crate::rows::{Table, a_life};
use call_table::{CallTable, Expect, Heard, Look, Outcome, Settled};
use row_text::{count, first, number, word};
use row_words::{id_of, of_outcome, of_value, whole};
use std::alloc::Global;
use std::test::Fail;
use wire_base::{CallFault, Datum, Id, OutOfMemory, Refusal};

fn of_drawn(alloc: Global, answer: Result<u64, CallFault>) -> Result<String, Fail> {
    match answer {
        Ok(n) => of_number(alloc, n),
        Err(fault) => of_fault(alloc, fault),
    }
}

fn of_settled(alloc: Global, settled: Settled) -> Result<String, Fail> {
    Ok(format!(in alloc; "{settled:?}")?)
}

fn of_look(alloc: Global, look: Look<'_>) -> Result<String, Fail> {
    match look {
        Look::Known(outcome) => of_outcome(alloc, outcome),
        Look::NotYet => word(alloc, "not yet"),
        Look::NoRequest => word(alloc, "no request"),
    }
}

fn of_report(alloc: Global, answer: Result<Option<Datum>, Refusal>) -> Result<String, Fail> {
    match answer {
        Ok(Some(value)) => of_value(alloc, &value),
        Ok(None) => word(alloc, "none"),
        Err(refusal) => of_refusal(alloc, refusal),
    }
}

fn of_heard(alloc: Global, heard: &Heard) -> Result<String, Fail> {
    match heard {
        Heard::New => word(alloc, "new"),
        Heard::Duplicate(_) => word(alloc, "duplicate"),
        Heard::OutOfMemory => word(alloc, "OutOfMemory"),
    }
}

fn of_kept(alloc: Global, answer: Result<bool, OutOfMemory>) -> Result<String, Fail> {
    match answer {
        Ok(is_kept) => of_flag(alloc, is_kept),
        Err(_) => word(alloc, "OutOfMemory"),
    }
}

/// A request that may have a progress argument.
fn begins(alloc: Global, table: &mut CallTable, words: &str) -> Result<String, Fail> {
    of_drawn(alloc, table.begin(Expect::Plain, words == "progress"))
}

fn foresees(alloc: Global, table: &CallTable, words: &str) -> Result<String, Fail> {
    let id = id_of(alloc, words)?;
    of_settled(alloc, table.foresee(&id))
}

fn settle(alloc: Global, table: &mut CallTable, id: &Id, n: i64) -> Result<String, Fail> {
    of_settled(alloc, table.settle(id, Outcome::Replied(whole(n))))
}

/// The words are an id, and the number that is its result.
fn settles(alloc: Global, table: &mut CallTable, words: &str) -> Result<String, Fail> {
    let (id, n) = first(words);
    let id = id_of(alloc, id)?;
    settle(alloc, table, &id, number(n))
}

fn outcome(alloc: Global, table: &CallTable, n: u64) -> Result<String, Fail> {
    of_look(alloc, table.outcome(n))
}

fn cancels(alloc: Global, table: &mut CallTable, n: u64) -> Result<String, Fail> {
    of_check(alloc, table.cancel(n))
}

fn forgets(alloc: Global, table: &mut CallTable, n: u64) -> Result<String, Fail> {
    of_check(alloc, table.forget(n))
}

fn report(alloc: Global, table: &mut CallTable, token: &Id, n: i64) -> Result<String, Fail> {
    of_kept(alloc, table.report(token, whole(n)))
}

/// The words are a token, and the number that is reported.
fn reports(alloc: Global, table: &mut CallTable, words: &str) -> Result<String, Fail> {
    let (token, n) = first(words);
    let token = id_of(alloc, token)?;
    report(alloc, table, &token, number(n))
}

fn takes(alloc: Global, table: &mut CallTable, n: u64) -> Result<String, Fail> {
    of_report(alloc, table.take_report(n))
}

fn hears(alloc: Global, table: &mut CallTable, words: &str) -> Result<String, Fail> {
    let id = id_of(alloc, words)?;
    of_heard(alloc, &table.hear(id))
}

fn waits(alloc: Global, table: &CallTable, words: &str) -> Result<String, Fail> {
    let id = id_of(alloc, words)?;
    of_flag(alloc, table.waits(&id))
}

fn answers(alloc: Global, table: &mut CallTable, words: &str) -> Result<String, Fail> {
    let id = id_of(alloc, words)?;
    of_check(alloc, table.answer(&id))
}

fn drawn(alloc: Global, table: &CallTable) -> Result<String, Fail> {
    of_number(alloc, table.drawn())
}

fn loses(alloc: Global, table: &mut CallTable) -> Result<String, Fail> {
    table.lose_all();
    word(alloc, "ok")
}

fn starves(alloc: Global, table: &mut CallTable) -> Result<String, Fail> {
    table.starve_all();
    word(alloc, "ok")
}

/// What is seen of the table.
fn looks(alloc: Global, table: &CallTable, name: &str, words: &str) -> Result<String, Fail> {
    match name {
        "foresees" => foresees(alloc, table, words),
        "outcome" => outcome(alloc, table, count(words)),
        "waits" => waits(alloc, table, words),
        "drawn" => drawn(alloc, table),
        _ => word(alloc, "no such call"),
    }
}

/// What befalls the table from the peer, or at the end of the connection.
fn befalls(alloc: Global, table: &mut CallTable, name: &str, words: &str) -> Result<String, Fail> {
    match name {
        "settles" => settles(alloc, table, words),
        "reports" => reports(alloc, table, words),
        "hears" => hears(alloc, table, words),
        "loses" => loses(alloc, table),
        "starves" => starves(alloc, table),
        _ => looks(alloc, table, name, words),
    }
}

impl Table for CallTable {
    fn empty(alloc: Global) -> CallTable {
        CallTable::new(alloc)
    }

    fn call(&mut self, alloc: Global, call: &str) -> Result<String, Fail> {
        let (name, words) = first(call);
        match name {
            "begins" => begins(alloc, self, words),
            "cancels" => cancels(alloc, self, count(words)),
            "forgets" => forgets(alloc, self, count(words)),
            "takes" => takes(alloc, self, count(words)),
            "answers" => answers(alloc, self, words),
            _ => befalls(alloc, self, name, words),
        }
    }
}

#[test]
fn own_requests_keep_their_first_response(rt: HostRuntime) -> Result<(), Fail> {
    let rows = "
        begins      | 1
        begins      | 2
        outcome 1   | not yet
        foresees 1  | First(1, Plain)
        settles 1 5 | First(1, Plain)
        foresees 1  | Stray
        settles 1 7 | Stray
        outcome 1   | 5
        outcome 2   | not yet
        outcome 3   | no request";
    a_life::<CallTable>(&rt, rt.alloc(), &[rows])
}

/// Neither a text nor an unknown number names request 1.
#[test]
fn other_ids_name_no_request(rt: HostRuntime) -> Result<(), Fail> {
    let rows = r#"
        begins        | 1
        foresees "1"  | Stray
        settles "1" 5 | Stray
        foresees 0    | Stray
        settles 0 5   | Stray
        foresees -1   | Stray
        settles -1 5  | Stray
        outcome 1     | not yet"#;
    a_life::<CallTable>(&rt, rt.alloc(), &[rows])
}

#[test]
fn outcomes_are_kept_until_forgotten(rt: HostRuntime) -> Result<(), Fail> {
    let rows = "
        begins      | 1
        begins      | 2
        forgets 1   | NoRequest
        foresees 1  | First(1, Plain)
        settles 1 5 | First(1, Plain)
        loses       | ok
        outcome 1   | 5
        outcome 2   | lost
        foresees 2  | Stray
        settles 2 5 | Stray
        forgets 1   | ok
        forgets 1   | NoRequest
        outcome 1   | no request
        drawn       | 2";
    a_life::<CallTable>(&rt, rt.alloc(), &[rows])
}

#[test]
fn requests_of_a_stopped_connection_starve(rt: HostRuntime) -> Result<(), Fail> {
    let rows = "
        begins    | 1
        starves   | ok
        outcome 1 | starved";
    a_life::<CallTable>(&rt, rt.alloc(), &[rows])
}

#[test]
fn requests_of_the_peer_wait_for_their_answer(rt: HostRuntime) -> Result<(), Fail> {
    let rows = r#"
        hears 1   | new
        hears 1   | duplicate
        hears "1" | new
        waits 1   | true
        answers 1 | ok
        waits 1   | false
        answers 1 | NoRequest
        hears 1   | new"#;
    a_life::<CallTable>(&rt, rt.alloc(), &[rows])
}

#[test]
fn a_request_is_cancelled_once(rt: HostRuntime) -> Result<(), Fail> {
    let rows = "
        begins      | 1
        begins      | 2
        cancels 1   | ok
        cancels 1   | AlreadyCancelled
        outcome 1   | not yet
        foresees 1  | First(1, Plain)
        settles 1 5 | First(1, Plain)
        cancels 1   | NoRequest
        loses       | ok
        cancels 2   | NoRequest
        cancels 3   | NoRequest";
    a_life::<CallTable>(&rt, rt.alloc(), &[rows])
}

/// Reports are kept until they are taken, or their request is forgotten, and none is after the answer.
#[test]
fn reports_are_taken_in_their_order(rt: HostRuntime) -> Result<(), Fail> {
    let rows = "
        begins progress | 1
        begins          | 2
        reports 1 5     | true
        reports 1 7     | true
        reports 2 5     | false
        reports 3 5     | false
        takes 1         | 5
        takes 2         | NoToken
        takes 3         | NoRequest
        foresees 1      | First(1, Plain)
        settles 1 5     | First(1, Plain)
        reports 1 5     | false
        takes 1         | 7
        takes 1         | none
        forgets 1       | ok
        takes 1         | NoRequest";
    a_life::<CallTable>(&rt, rt.alloc(), &[rows])
}

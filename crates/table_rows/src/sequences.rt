//! Worked sequences.

use crate::answers::{of_check, of_done, of_number, of_refusal};
use crate::rows::{Table, a_life};
use crate::values::count_if_any;
use enumerables::{Consumer, Producer, page_value, sequence_value};
use row_text::{count, first, number, size, word};
use row_words::{id_of, of_value, whole};
use rpc_items::{Expect, Outcome};
use std::alloc::Global;
use std::test::Fail;
use wire_base::{Datum, DatumList, Id, OutOfMemory, Refusal};

fn push_numbers(values: &mut DatumList, last: i64) -> Result<(), Fail> {
    for n in 1..=last {
        values.push(whole(n))?;
    }
    Ok(())
}

/// The numbers from 1 to this one.
fn numbers(alloc: Global, last: i64) -> Result<DatumList, Fail> {
    let mut values = DatumList::new(alloc);
    push_numbers(&mut values, last)?;
    Ok(values)
}

fn of_next(alloc: Global, page: Result<Option<Datum>, OutOfMemory>) -> Result<String, Fail> {
    match page {
        Ok(Some(page)) => of_value(alloc, &page),
        Ok(None) => word(alloc, "none"),
        Err(_) => word(alloc, "OutOfMemory"),
    }
}

/// The size of a page, and how many values come first.
fn sizes(words: &str) -> (u32, u32) {
    let (page, early) = first(words);
    (size(page), size(early))
}

/// The words are how many values there are, the size of a page, and how many values come first.
fn produces(alloc: Global, producer: &mut Producer, words: &str) -> Result<String, Fail> {
    let (last, words) = first(words);
    let (page, early) = sizes(words);
    let values = numbers(alloc, number(last))?;
    of_done(alloc, producer.produce(values, page, early))
}

/// Whether a sequence of the same words can be produced.
fn checks(alloc: Global, producer: &Producer, words: &str) -> Result<String, Fail> {
    let (last, words) = first(words);
    let (page, early) = sizes(words);
    let values = numbers(alloc, number(last))?;
    of_check(alloc, producer.check(&values, page, early))
}

fn drawn(alloc: Global, producer: &Producer) -> Result<String, Fail> {
    of_number(alloc, producer.drawn())
}

/// The next page of a token.
fn shows(alloc: Global, producer: &Producer, token: &str) -> Result<String, Fail> {
    let token = id_of(alloc, token)?;
    of_next(alloc, producer.next_page(&token))
}

fn turn(alloc: Global, producer: &mut Producer, token: &Id) -> Result<String, Fail> {
    producer.turn(token);
    word(alloc, "ok")
}

/// The next page of a token is answered.
fn turns_page(alloc: Global, producer: &mut Producer, token: &str) -> Result<String, Fail> {
    let token = id_of(alloc, token)?;
    turn(alloc, producer, &token)
}

fn give_up(alloc: Global, producer: &mut Producer, token: &Id) -> Result<String, Fail> {
    producer.give_up(token);
    word(alloc, "ok")
}

fn ends_token(alloc: Global, producer: &mut Producer, token: &str) -> Result<String, Fail> {
    let token = id_of(alloc, token)?;
    give_up(alloc, producer, &token)
}

fn ends_tokens(alloc: Global, producer: &mut Producer) -> Result<String, Fail> {
    producer.end_all();
    word(alloc, "ok")
}

impl Table for Producer {
    fn empty(alloc: Global) -> Producer {
        Producer::new(alloc)
    }

    fn call(&mut self, alloc: Global, call: &str) -> Result<String, Fail> {
        let (name, words) = first(call);
        match name {
            "produces" => produces(alloc, self, words),
            "checks" => checks(alloc, self, words),
            "drawn" => drawn(alloc, self),
            "shows" => shows(alloc, self, words),
            "turns" => turns_page(alloc, self, words),
            "gives-up" => ends_token(alloc, self, words),
            "ends" => ends_tokens(alloc, self),
            _ => word(alloc, "no such call"),
        }
    }
}

#[test]
fn values_come_once_and_in_order(rt: HostRuntime) -> Result<(), Fail> {
    let rows = r#"
        produces 7 3 2 | ok
        shows 1        | {"finished":false,"values":[3,4,5]}
        turns 1        | ok
        shows 1        | {"finished":true,"values":[6,7]}
        turns 1        | ok
        shows 1        | none"#;
    a_life::<Producer>(&rt, rt.alloc(), &[rows])
}

#[test]
fn a_full_page_can_be_the_last(rt: HostRuntime) -> Result<(), Fail> {
    let rows = r#"
        produces 6 3 0 | ok
        shows 1        | {"finished":false,"values":[1,2,3]}
        turns 1        | ok
        shows 1        | {"finished":true,"values":[4,5,6]}
        turns 1        | ok
        shows 1        | none"#;
    a_life::<Producer>(&rt, rt.alloc(), &[rows])
}

#[test]
fn pages_can_be_of_one_value(rt: HostRuntime) -> Result<(), Fail> {
    let rows = r#"
        produces 2 1 0 | ok
        shows 1        | {"finished":false,"values":[1]}
        turns 1        | ok
        shows 1        | {"finished":true,"values":[2]}
        turns 1        | ok"#;
    a_life::<Producer>(&rt, rt.alloc(), &[rows])
}

/// No token is drawn where the first values are all.
#[test]
fn tokens_are_drawn_where_values_are_left(rt: HostRuntime) -> Result<(), Fail> {
    let rows = "
        produces 0 3 0 | ok
        drawn          | 0
        anew           | ok
        produces 3 3 4 | ok
        drawn          | 0
        anew           | ok
        produces 3 3 3 | ok
        drawn          | 0
        anew           | ok
        produces 3 3 2 | ok
        drawn          | 1";
    a_life::<Producer>(&rt, rt.alloc(), &[rows])
}

#[test]
fn tokens_end_alone(rt: HostRuntime) -> Result<(), Fail> {
    let rows = r#"
        produces 3 2 0 | ok
        produces 2 2 1 | ok
        drawn          | 2
        gives-up 0     | ok
        gives-up 1     | ok
        shows 0        | none
        shows 1        | none
        shows 3        | none
        shows 2        | {"finished":true,"values":[2]}
        turns 2        | ok"#;
    a_life::<Producer>(&rt, rt.alloc(), &[rows])
}

#[test]
fn no_token_lives_after_the_end(rt: HostRuntime) -> Result<(), Fail> {
    let rows = "
        produces 3 2 0 | ok
        ends           | ok
        shows 1        | none";
    a_life::<Producer>(&rt, rt.alloc(), &[rows])
}

#[test]
fn pages_have_a_value(rt: HostRuntime) -> Result<(), Fail> {
    let rows = "
        checks 1 0 1 | BadPage
        checks 1 1 0 | ok";
    a_life::<Producer>(&rt, rt.alloc(), &[rows])
}

/// The result that is a sequence of one value, with a token or without.
fn sequence(alloc: Global, token: Option<u64>) -> Result<Outcome, Fail> {
    let values = numbers(alloc, 1)?;
    Ok(Outcome::Replied(sequence_value(alloc, token, values.as_slice())?))
}

/// The result that is a page of one value.
fn page(alloc: Global, is_last: bool) -> Result<Outcome, Fail> {
    let values = numbers(alloc, 1)?;
    Ok(Outcome::Replied(page_value(alloc, is_last, values.as_slice())?))
}

/// The outcome that words stand for: `sequence` with its token if it has one, `page` with `last` or `more`, or `lost`.
fn outcome(alloc: Global, words: &str) -> Result<Outcome, Fail> {
    let (name, word) = first(words);
    match name {
        "sequence" => sequence(alloc, count_if_any(word)),
        "page" => page(alloc, word == "last"),
        _ => Ok(Outcome::Lost),
    }
}

fn expect(word: &str) -> Expect {
    match word {
        "expected" => Expect::Sequence,
        _ => Expect::Plain,
    }
}

fn settle(
    alloc: Global,
    consumer: &mut Consumer,
    n: u64,
    expect: Expect,
    outcome: &Outcome,
) -> Result<String, Fail> {
    of_done(alloc, consumer.settle(n, expect, outcome))
}

/// The words are a request, whether a sequence was `expected` or its result is `plain`, and its outcome.
fn settles(alloc: Global, consumer: &mut Consumer, words: &str) -> Result<String, Fail> {
    let (n, words) = first(words);
    let (expect_word, words) = first(words);
    let outcome = outcome(alloc, words)?;
    settle(alloc, consumer, count(n), expect(expect_word), &outcome)
}

/// A number, or a name between quotes.
fn of_id(alloc: Global, id: &Id) -> Result<String, Fail> {
    match id {
        Id::Number(n) => Ok(format!(in alloc; "{n}")?),
        Id::Name(name) => Ok(format!(in alloc; "\"{}\"", name.as_str())?),
    }
}

fn of_token(alloc: Global, answer: Result<&Id, Refusal>) -> Result<String, Fail> {
    match answer {
        Ok(token) => of_id(alloc, token),
        Err(refusal) => of_refusal(alloc, refusal),
    }
}

/// The token of the sequence that is the result of a request.
fn follows(alloc: Global, consumer: &Consumer, n: u64) -> Result<String, Fail> {
    of_token(alloc, consumer.check(n))
}

/// The words are the request of a sequence, and the one that asks for its next page.
fn asks_page(alloc: Global, consumer: &mut Consumer, words: &str) -> Result<String, Fail> {
    let (n, asking) = first(words);
    consumer.turn(count(n), count(asking));
    word(alloc, "ok")
}

fn leaves(alloc: Global, consumer: &mut Consumer, n: u64) -> Result<String, Fail> {
    consumer.give_up(n);
    word(alloc, "ok")
}

fn leaves_all(alloc: Global, consumer: &mut Consumer) -> Result<String, Fail> {
    consumer.end_all();
    word(alloc, "ok")
}

impl Table for Consumer {
    fn empty(alloc: Global) -> Consumer {
        Consumer::new(alloc)
    }

    fn call(&mut self, alloc: Global, call: &str) -> Result<String, Fail> {
        let (name, words) = first(call);
        match name {
            "settles" => settles(alloc, self, words),
            "follows" => follows(alloc, self, count(words)),
            "turns" => asks_page(alloc, self, words),
            "gives-up" => leaves(alloc, self, count(words)),
            "ends" => leaves_all(alloc, self),
            _ => word(alloc, "no such call"),
        }
    }
}

#[test]
fn a_sequence_is_followed_to_its_last_page(rt: HostRuntime) -> Result<(), Fail> {
    let rows = "
        settles 1 expected sequence 5 | ok
        follows 1                     | 5
        turns 1 2                     | ok
        follows 1                     | NextOutstanding
        settles 2 plain page more     | ok
        follows 1                     | 5
        turns 1 3                     | ok
        settles 3 plain page last     | ok
        follows 1                     | NoEnumerable";
    a_life::<Consumer>(&rt, rt.alloc(), &[rows])
}

#[test]
fn a_page_is_of_one_sequence(rt: HostRuntime) -> Result<(), Fail> {
    let rows = "
        settles 1 expected sequence 5 | ok
        settles 2 expected sequence 6 | ok
        turns 1 3                     | ok
        turns 2 4                     | ok
        settles 4 plain lost          | ok
        follows 1                     | NextOutstanding
        follows 2                     | NoEnumerable
        ends                          | ok
        follows 1                     | NoEnumerable";
    a_life::<Consumer>(&rt, rt.alloc(), &[rows])
}

/// Neither a sequence that has no values left is followed, nor one that wasn't expected, nor one that was given up.
#[test]
fn other_sequences_are_not_followed(rt: HostRuntime) -> Result<(), Fail> {
    let rows = "
        settles 1 expected sequence   | ok
        settles 2 plain sequence 5    | ok
        settles 3 expected sequence 6 | ok
        gives-up 3                    | ok
        follows 1                     | NoEnumerable
        follows 2                     | NoEnumerable
        follows 3                     | NoEnumerable";
    a_life::<Consumer>(&rt, rt.alloc(), &[rows])
}

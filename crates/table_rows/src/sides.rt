//! The handles of both sides of a connection, and what each word of a row does with them. Each of their calls stands alone in
//! its function, so that nothing that it promises is carried along by the others.

use crate::answers::{of_check, of_done, of_flag, of_number};
use crate::rows::Table;
use crate::values::{arguments, count_if_any, id_if_any, named, object};
use marshalled_handles::{Holder, Offered, Owner, offered_in, on_release, standing};
use row_text::{count, first, word};
use row_words::{handle_of, id_of, of_life};
use std::alloc::Global;
use std::test::Fail;
use wire_base::{Datum, Id};

/// The handles that this end made, and those that it adopted from the peer.
#[derive(Drop)]
pub struct Sides {
    owner: Owner,
    holder: Holder,
}

fn of_number_if_any(alloc: Global, number: Option<u64>) -> Result<String, Fail> {
    match number {
        Some(n) => of_number(alloc, n),
        None => word(alloc, "none"),
    }
}

fn push_word(told: &mut String, word: &str) -> Result<(), Fail> {
    if !told.is_empty() {
        told.push_str(" ")?;
    }
    told.push_str(word)?;
    Ok(())
}

fn push_number(alloc: Global, told: &mut String, number: Option<u64>) -> Result<(), Fail> {
    let number = of_number_if_any(alloc, number)?;
    push_word(told, number.as_str())
}

/// The words are an object, and the request with whose response its handle ends, or nothing.
fn offers(alloc: Global, owner: &mut Owner, words: &str) -> Result<String, Fail> {
    let (object, until) = first(words);
    of_done(alloc, owner.offer(count(object), count_if_any(until)))
}

/// The words are a request, and its arguments.
fn offers_all(alloc: Global, owner: &mut Owner, words: &str) -> Result<String, Fail> {
    let (request, words) = first(words);
    let args = arguments(alloc, words)?;
    of_done(
        alloc,
        owner.offer_all(args.as_slice(), Some(count(request))),
    )
}

fn can_offer(alloc: Global, owner: &Owner, words: &str) -> Result<String, Fail> {
    let args = arguments(alloc, words)?;
    of_check(alloc, owner.check_arguments(args.as_slice()))
}

fn has_room(alloc: Global, owner: &Owner, n: u64) -> Result<String, Fail> {
    of_check(alloc, owner.check(n as usize))
}

fn can_release(alloc: Global, owner: &Owner, number: u64) -> Result<String, Fail> {
    of_check(alloc, owner.check_handle(number))
}

fn drawn(alloc: Global, owner: &Owner) -> Result<String, Fail> {
    of_number(alloc, owner.drawn())
}

fn push_objects(alloc: Global, owner: &Owner, told: &mut String) -> Result<(), Fail> {
    for number in 0..5 {
        push_number(alloc, told, owner.object(number))?;
    }
    Ok(())
}

/// The objects of handles 0 to 4.
fn objects(alloc: Global, owner: &Owner) -> Result<String, Fail> {
    let mut told = String::new(alloc);
    push_objects(alloc, owner, &mut told)?;
    Ok(told)
}

fn is_answered(alloc: Global, owner: &mut Owner, request: u64) -> Result<String, Fail> {
    owner.answered(request);
    word(alloc, "ok")
}

fn lets_go(alloc: Global, owner: &mut Owner, number: u64) -> Result<String, Fail> {
    owner.release(number);
    word(alloc, "ok")
}

fn ends_own(alloc: Global, owner: &mut Owner) -> Result<String, Fail> {
    owner.end_all();
    word(alloc, "ok")
}

/// What is seen of the handles that this end made.
fn looks_at_own(alloc: Global, owner: &Owner, name: &str, words: &str) -> Result<String, Fail> {
    match name {
        "can-offer" => can_offer(alloc, owner, words),
        "can-release" => can_release(alloc, owner, count(words)),
        "has-room" => has_room(alloc, owner, count(words)),
        "drawn" => drawn(alloc, owner),
        "objects" => objects(alloc, owner),
        _ => word(alloc, "no such call"),
    }
}

/// What a call on the handles that this end made answers.
fn owns(alloc: Global, owner: &mut Owner, call: &str) -> Result<String, Fail> {
    let (name, words) = first(call);
    match name {
        "offers" => offers(alloc, owner, words),
        "offers-all" => offers_all(alloc, owner, words),
        "answered" => is_answered(alloc, owner, count(words)),
        "releases" => lets_go(alloc, owner, count(words)),
        "ends" => ends_own(alloc, owner),
        _ => looks_at_own(alloc, owner, name, words),
    }
}

/// The words are a handle, and the request with whose response it ends, or nothing.
fn adopts(alloc: Global, holder: &mut Holder, words: &str) -> Result<String, Fail> {
    let (number, until) = first(words);
    let until = id_if_any(alloc, until)?;
    of_done(alloc, holder.adopt(count(number), until))
}

fn adopts_in_request(
    alloc: Global,
    holder: &mut Holder,
    value: &Datum,
    request: &str,
) -> Result<String, Fail> {
    let id = id_of(alloc, request)?;
    of_done(alloc, holder.adopt_value(value, Some(&id)))
}

fn adopts_in(
    alloc: Global,
    holder: &mut Holder,
    value: &Datum,
    request: &str,
) -> Result<String, Fail> {
    match request {
        "none" => of_done(alloc, holder.adopt_value(value, None)),
        request => adopts_in_request(alloc, holder, value, request),
    }
}

/// The words are a request, or `none` for another message, and what the object in it is told by.
fn adopts_value(alloc: Global, holder: &mut Holder, words: &str) -> Result<String, Fail> {
    let (request, words) = first(words);
    let value = object(alloc, words)?;
    adopts_in(alloc, holder, &value, request)
}

fn adopts_named(alloc: Global, holder: &mut Holder, words: &str) -> Result<String, Fail> {
    let params = named(alloc, words)?;
    of_done(alloc, holder.adopt_arguments(&params, None))
}

fn can_hand(alloc: Global, holder: &Holder, words: &str) -> Result<String, Fail> {
    let args = arguments(alloc, words)?;
    of_check(alloc, holder.check_arguments(args.as_slice()))
}

fn push_numbers(alloc: Global, holder: &Holder, told: &mut String) -> Result<(), Fail> {
    for place in 0..4 {
        push_number(alloc, told, holder.number_at(place))?;
    }
    Ok(())
}

/// The handles at places 0 to 3.
fn numbers(alloc: Global, holder: &Holder) -> Result<String, Fail> {
    let mut told = String::new(alloc);
    push_numbers(alloc, holder, &mut told)?;
    Ok(told)
}

fn lives(holder: &Holder, number: u64) -> Option<bool> {
    match holder.look(number) {
        Some(ended) => Some(!ended),
        None => None,
    }
}

fn responds(alloc: Global, holder: &mut Holder, id: &Id) -> Result<String, Fail> {
    holder.responded(id);
    word(alloc, "ok")
}

fn is_responded(alloc: Global, holder: &mut Holder, word: &str) -> Result<String, Fail> {
    let id = id_of(alloc, word)?;
    responds(alloc, holder, &id)
}

fn gives_back(alloc: Global, holder: &mut Holder, number: u64) -> Result<String, Fail> {
    holder.release(number);
    word(alloc, "ok")
}

fn ends_adopted(alloc: Global, holder: &mut Holder) -> Result<String, Fail> {
    holder.end_all();
    word(alloc, "ok")
}

/// What is seen of the handles that were adopted.
fn looks_at_adopted(
    alloc: Global,
    holder: &Holder,
    name: &str,
    words: &str,
) -> Result<String, Fail> {
    match name {
        "can-hand" => can_hand(alloc, holder, words),
        "numbers" => numbers(alloc, holder),
        "looks" => of_life(alloc, lives(holder, count(words))),
        _ => word(alloc, "no such call"),
    }
}

/// What a call on the handles of the peer answers.
fn holds(alloc: Global, holder: &mut Holder, call: &str) -> Result<String, Fail> {
    let (name, words) = first(call);
    match name {
        "adopts" => adopts(alloc, holder, words),
        "adopts-value" => adopts_value(alloc, holder, words),
        "adopts-named" => adopts_named(alloc, holder, words),
        "responded" => is_responded(alloc, holder, words),
        "releases" => gives_back(alloc, holder, count(words)),
        "ends" => ends_adopted(alloc, holder),
        _ => looks_at_adopted(alloc, holder, name, words),
    }
}

/// What a value offers: the words are what an object is told by.
fn offered(alloc: Global, words: &str) -> Result<String, Fail> {
    let value = object(alloc, words)?;
    of_offer(alloc, &value)
}

fn of_offer(alloc: Global, value: &Datum) -> Result<String, Fail> {
    match offered_in(value) {
        Some(offered) => of_offered(alloc, offered),
        None => word(alloc, "none"),
    }
}

fn of_offered(alloc: Global, offered: Offered) -> Result<String, Fail> {
    Ok(format!(in alloc; "{} {:?}", offered.handle, offered.lifetime)?)
}

impl Sides {
    /// The peer releases a handle: whether that ends it.
    fn hears_release(&mut self, alloc: Global, words: &str) -> Result<String, Fail> {
        let lived = on_release(&mut self.owner, &mut self.holder, handle_of(words));
        of_flag(alloc, lived)
    }

    /// Whether a handle of either side lives.
    fn stands(&self, alloc: Global, words: &str) -> Result<String, Fail> {
        of_life(alloc, standing(&self.owner, &self.holder, handle_of(words)))
    }

    /// What a call on the handles of both sides answers.
    fn tells_apart(&mut self, alloc: Global, name: &str, words: &str) -> Result<String, Fail> {
        match name {
            "peer-releases" => self.hears_release(alloc, words),
            "stands" => self.stands(alloc, words),
            "offered" => offered(alloc, words),
            _ => word(alloc, "no such call"),
        }
    }
}

impl Table for Sides {
    fn empty(alloc: Global) -> Sides {
        Sides {
            owner: Owner::new(alloc),
            holder: Holder::new(alloc),
        }
    }

    fn call(&mut self, alloc: Global, call: &str) -> Result<String, Fail> {
        let (name, words) = first(call);
        match name {
            "owner" => owns(alloc, &mut self.owner, words),
            "holder" => holds(alloc, &mut self.holder, words),
            _ => self.tells_apart(alloc, name, words),
        }
    }
}

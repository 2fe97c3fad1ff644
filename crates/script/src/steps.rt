//! Steps from the words of their lines.

ghost use Rattle.std.specs.Prelude.{◌≡◌, map, replicate, IfOk};
ghost use Rattle.script.specs.Given.{Gives};
ghost use Rattle.script.specs.Table.{calls, mux_calls, plain};
ghost use Rattle.script.specs.Steps.{step_word_in, step_by, step_behind, step_in};

use crate::fault::LineFault;
use crate::line_step::LineStep;
use crate::reason::ScriptReason;
use crate::rest;
use crate::step_word::{StepWord, step_word};
use endpoint_items::Call;
use endpoint_run::Step;
use mux_run::Side;
use rpc_end::{Answer, HandleKey, Terms};
use std::alloc::Global;
use wire_base::{Blob, OutOfMemory};

const BAD_WORD: LineFault = LineFault::Refused(ScriptReason::BadWord);

/// The most bytes that one `fill` writes.
const MOST_FILL: u32 = 1_000_000;

fn plain(step: Step) -> LineStep
    ensures { result ≡ plain step }
{
    LineStep { step, filled: 0 }
}

/// A line that is a call of the multiplexing end.
fn mux_calls(side: Side, call: mux_items::Call) -> LineStep
    ensures { result ≡ mux_calls side call }
{
    plain(Step::Call(side, Call::Mux(call)))
}

#[tactic(auto, unfolding(crate::specs::Steps::step_by))]
fn offer(alloc: Global, words: &[&str]) -> Result<LineStep, LineFault>
    ensures { Gives (λ s. s) result (step_by StepWord.Offer (map (λ w. w.now) words.now)) }
{
    let [side, name, window] = words else {
        return Err(BAD_WORD);
    };
    let side = text_words::side(side).ok_or(BAD_WORD)?;
    let name = text_words::name(alloc, name)?.ok_or(BAD_WORD)?;
    let window = text_words::number(window).ok_or(BAD_WORD)?;
    Ok(mux_calls(side, mux_items::Call::Offer(name, window)))
}

#[tactic(auto, unfolding(crate::specs::Steps::step_by))]
fn accept(words: &[&str]) -> Result<LineStep, LineFault>
    ensures { Gives (λ s. s) result (step_by StepWord.Accept (map (λ w. w.now) words.now)) }
{
    let [side, channel, window] = words else {
        return Err(BAD_WORD);
    };
    let side = text_words::side(side).ok_or(BAD_WORD)?;
    let channel = text_words::channel(channel).ok_or(BAD_WORD)?;
    let window = text_words::number(window).ok_or(BAD_WORD)?;
    Ok(mux_calls(side, mux_items::Call::Accept(channel.key(side), window)))
}

#[tactic(auto, unfolding(crate::specs::Steps::step_by))]
fn write(alloc: Global, words: &[&str]) -> Result<LineStep, LineFault>
    ensures { Gives (λ s. s) result (step_by StepWord.Write (map (λ w. w.now) words.now)) }
{
    let [side, channel, bytes] = words else {
        return Err(BAD_WORD);
    };
    let side = text_words::side(side).ok_or(BAD_WORD)?;
    let channel = text_words::channel(channel).ok_or(BAD_WORD)?;
    let bytes = text_words::bytes(alloc, bytes)?.ok_or(BAD_WORD)?;
    Ok(mux_calls(side, mux_items::Call::Write(channel.key(side), bytes)))
}

/// A byte, so many times.
fn repeated(alloc: Global, byte: u8, count: u32) -> Result<Blob, OutOfMemory>
    ensures { IfOk result (λ bytes. bytes ≡ replicate count byte) }
{
    let bytes = vec![in alloc; byte; count as usize]?;
    Blob::from_bytes(alloc, &bytes)
}

#[tactic(auto, unfolding(crate::specs::Steps::step_by))]
fn fill(alloc: Global, words: &[&str]) -> Result<LineStep, LineFault>
    ensures { Gives (λ s. s) result (step_by StepWord.Fill (map (λ w. w.now) words.now)) }
{
    let [side, channel, count, byte] = words else {
        return Err(BAD_WORD);
    };
    let side = text_words::side(side).ok_or(BAD_WORD)?;
    let channel = text_words::channel(channel).ok_or(BAD_WORD)?;
    let filled = text_words::limited_number(MOST_FILL, count).ok_or(BAD_WORD)?;
    let byte = text_words::byte(alloc, byte)?.ok_or(BAD_WORD)?;
    let bytes = repeated(alloc, byte, filled)?;
    let call = mux_items::Call::Write(channel.key(side), bytes);
    let step = Step::Call(side, Call::Mux(call));
    Ok(LineStep { step, filled })
}

#[tactic(auto, unfolding(crate::specs::Steps::step_by))]
fn read(words: &[&str]) -> Result<LineStep, LineFault>
    ensures { Gives (λ s. s) result (step_by StepWord.Read (map (λ w. w.now) words.now)) }
{
    let [side, channel, max] = words else {
        return Err(BAD_WORD);
    };
    let side = text_words::side(side).ok_or(BAD_WORD)?;
    let channel = text_words::channel(channel).ok_or(BAD_WORD)?;
    let max = text_words::number(max).ok_or(BAD_WORD)?;
    Ok(mux_calls(side, mux_items::Call::Read(channel.key(side), max)))
}

#[tactic(auto, unfolding(crate::specs::Steps::step_by))]
fn complete(words: &[&str]) -> Result<LineStep, LineFault>
    ensures { Gives (λ s. s) result (step_by StepWord.Complete (map (λ w. w.now) words.now)) }
{
    let [side, channel] = words else {
        return Err(BAD_WORD);
    };
    let side = text_words::side(side).ok_or(BAD_WORD)?;
    let channel = text_words::channel(channel).ok_or(BAD_WORD)?;
    Ok(mux_calls(side, mux_items::Call::Complete(channel.key(side))))
}

#[tactic(auto, unfolding(crate::specs::Steps::step_by))]
fn terminate(words: &[&str]) -> Result<LineStep, LineFault>
    ensures { Gives (λ s. s) result (step_by StepWord.Terminate (map (λ w. w.now) words.now)) }
{
    let [side, channel] = words else {
        return Err(BAD_WORD);
    };
    let side = text_words::side(side).ok_or(BAD_WORD)?;
    let channel = text_words::channel(channel).ok_or(BAD_WORD)?;
    Ok(mux_calls(side, mux_items::Call::Terminate(channel.key(side))))
}

/// A line that is a call of an end with connections.
fn calls(side: Side, call: Call) -> LineStep
    ensures { result ≡ calls side call }
{
    plain(Step::Call(side, call))
}

#[tactic(auto, unfolding(crate::specs::Steps::step_by))]
fn attach(words: &[&str]) -> Result<LineStep, LineFault>
    ensures { Gives (λ s. s) result (step_by StepWord.Attach (map (λ w. w.now) words.now)) }
{
    let [side, channel, framing, encoding] = words else {
        return Err(BAD_WORD);
    };
    let side = text_words::side(side).ok_or(BAD_WORD)?;
    let channel = text_words::channel(channel).ok_or(BAD_WORD)?;
    let framing = text_words::framing(framing).ok_or(BAD_WORD)?;
    let encoding = text_words::encoding(encoding).ok_or(BAD_WORD)?;
    let terms = Terms { framing, encoding };
    Ok(calls(side, Call::Attach(channel.key(side), terms)))
}

#[tactic(auto, unfolding(crate::specs::Steps::step_by))]
fn request(alloc: Global, words: &[&str]) -> Result<LineStep, LineFault>
    ensures { Gives (λ s. s) result (step_by StepWord.Request (map (λ w. w.now) words.now)) }
{
    let [side, channel, method, expect, rest @ ..] = words else {
        return Err(BAD_WORD);
    };
    let side = text_words::side(side).ok_or(BAD_WORD)?;
    let channel = text_words::channel(channel).ok_or(BAD_WORD)?;
    let method = text_words::method(alloc, method)?.ok_or(BAD_WORD)?;
    let expect = text_words::expect(expect).ok_or(BAD_WORD)?;
    let args = rest::arguments(alloc, rest)?;
    Ok(calls(side, Call::Request(channel.key(side), method, args, expect)))
}

#[tactic(auto, unfolding(crate::specs::Steps::step_by))]
fn notify(alloc: Global, words: &[&str]) -> Result<LineStep, LineFault>
    ensures { Gives (λ s. s) result (step_by StepWord.Notify (map (λ w. w.now) words.now)) }
{
    let [side, channel, method, rest @ ..] = words else {
        return Err(BAD_WORD);
    };
    let side = text_words::side(side).ok_or(BAD_WORD)?;
    let channel = text_words::channel(channel).ok_or(BAD_WORD)?;
    let method = text_words::method(alloc, method)?.ok_or(BAD_WORD)?;
    let args = rest::arguments(alloc, rest)?;
    Ok(calls(side, Call::Notify(channel.key(side), method, args)))
}

#[tactic(auto, unfolding(crate::specs::Steps::step_by))]
fn result(alloc: Global, words: &[&str]) -> Result<LineStep, LineFault>
    ensures { Gives (λ s. s) result (step_by StepWord.Result (map (λ w. w.now) words.now)) }
{
    let [side, channel, id, rest @ ..] = words else {
        return Err(BAD_WORD);
    };
    let side = text_words::side(side).ok_or(BAD_WORD)?;
    let channel = text_words::channel(channel).ok_or(BAD_WORD)?;
    let id = text_words::json_id(alloc, id)?.ok_or(BAD_WORD)?;
    let value = rest::json(alloc, rest)?;
    let answer = Answer::Value(value);
    Ok(calls(side, Call::Respond(channel.key(side), id, answer)))
}

#[tactic(auto, unfolding(crate::specs::Steps::step_by))]
fn object(alloc: Global, words: &[&str]) -> Result<LineStep, LineFault>
    ensures { Gives (λ s. s) result (step_by StepWord.Object (map (λ w. w.now) words.now)) }
{
    let [side, channel, id, object] = words else {
        return Err(BAD_WORD);
    };
    let side = text_words::side(side).ok_or(BAD_WORD)?;
    let channel = text_words::channel(channel).ok_or(BAD_WORD)?;
    let id = text_words::json_id(alloc, id)?.ok_or(BAD_WORD)?;
    let object = u64::from(text_words::number(object).ok_or(BAD_WORD)?);
    let answer = Answer::Object(object);
    Ok(calls(side, Call::Respond(channel.key(side), id, answer)))
}

#[tactic(auto, unfolding(crate::specs::Steps::step_by))]
fn sequence(alloc: Global, words: &[&str]) -> Result<LineStep, LineFault>
    ensures { Gives (λ s. s) result (step_by StepWord.Sequence (map (λ w. w.now) words.now)) }
{
    let [side, channel, id, page, first, rest @ ..] = words else {
        return Err(BAD_WORD);
    };
    let side = text_words::side(side).ok_or(BAD_WORD)?;
    let channel = text_words::channel(channel).ok_or(BAD_WORD)?;
    let id = text_words::json_id(alloc, id)?.ok_or(BAD_WORD)?;
    let page = text_words::number(page).ok_or(BAD_WORD)?;
    let first = text_words::number(first).ok_or(BAD_WORD)?;
    let values = rest::array(alloc, rest)?;
    let answer = Answer::Sequence(values, page, first);
    Ok(calls(side, Call::Respond(channel.key(side), id, answer)))
}

#[tactic(auto, unfolding(crate::specs::Steps::step_by))]
fn fault(alloc: Global, words: &[&str]) -> Result<LineStep, LineFault>
    ensures { Gives (λ s. s) result (step_by StepWord.Fault (map (λ w. w.now) words.now)) }
{
    let [side, channel, id, code, rest @ ..] = words else {
        return Err(BAD_WORD);
    };
    let side = text_words::side(side).ok_or(BAD_WORD)?;
    let channel = text_words::channel(channel).ok_or(BAD_WORD)?;
    let id = text_words::json_id(alloc, id)?.ok_or(BAD_WORD)?;
    let code = text_words::signed(code).ok_or(BAD_WORD)?;
    let text = rest::string(alloc, rest)?;
    let answer = Answer::Fault(code, text, None);
    Ok(calls(side, Call::Respond(channel.key(side), id, answer)))
}

#[tactic(auto, unfolding(crate::specs::Steps::step_by))]
fn cancel(words: &[&str]) -> Result<LineStep, LineFault>
    ensures { Gives (λ s. s) result (step_by StepWord.Cancel (map (λ w. w.now) words.now)) }
{
    let [side, channel, number] = words else {
        return Err(BAD_WORD);
    };
    let side = text_words::side(side).ok_or(BAD_WORD)?;
    let channel = text_words::channel(channel).ok_or(BAD_WORD)?;
    let number = u64::from(text_words::number(number).ok_or(BAD_WORD)?);
    Ok(calls(side, Call::Cancel(channel.key(side), number)))
}

#[tactic(auto, unfolding(crate::specs::Steps::step_by))]
fn report(alloc: Global, words: &[&str]) -> Result<LineStep, LineFault>
    ensures { Gives (λ s. s) result (step_by StepWord.Report (map (λ w. w.now) words.now)) }
{
    let [side, channel, id, token, rest @ ..] = words else {
        return Err(BAD_WORD);
    };
    let side = text_words::side(side).ok_or(BAD_WORD)?;
    let channel = text_words::channel(channel).ok_or(BAD_WORD)?;
    let id = text_words::json_id(alloc, id)?.ok_or(BAD_WORD)?;
    let token = text_words::json_id(alloc, token)?.ok_or(BAD_WORD)?;
    let value = rest::json(alloc, rest)?;
    Ok(calls(side, Call::Report(channel.key(side), id, token, value)))
}

#[tactic(auto, unfolding(crate::specs::Steps::step_by))]
fn reports(words: &[&str]) -> Result<LineStep, LineFault>
    ensures { Gives (λ s. s) result (step_by StepWord.Reports (map (λ w. w.now) words.now)) }
{
    let [side, channel, number] = words else {
        return Err(BAD_WORD);
    };
    let side = text_words::side(side).ok_or(BAD_WORD)?;
    let channel = text_words::channel(channel).ok_or(BAD_WORD)?;
    let number = u64::from(text_words::number(number).ok_or(BAD_WORD)?);
    Ok(calls(side, Call::TakeReport(channel.key(side), number)))
}

#[tactic(auto, unfolding(crate::specs::Steps::step_by))]
fn next(words: &[&str]) -> Result<LineStep, LineFault>
    ensures { Gives (λ s. s) result (step_by StepWord.Next (map (λ w. w.now) words.now)) }
{
    let [side, channel, number] = words else {
        return Err(BAD_WORD);
    };
    let side = text_words::side(side).ok_or(BAD_WORD)?;
    let channel = text_words::channel(channel).ok_or(BAD_WORD)?;
    let number = u64::from(text_words::number(number).ok_or(BAD_WORD)?);
    Ok(calls(side, Call::Next(channel.key(side), number)))
}

#[tactic(auto, unfolding(crate::specs::Steps::step_by))]
fn abort(words: &[&str]) -> Result<LineStep, LineFault>
    ensures { Gives (λ s. s) result (step_by StepWord.Abort (map (λ w. w.now) words.now)) }
{
    let [side, channel, number] = words else {
        return Err(BAD_WORD);
    };
    let side = text_words::side(side).ok_or(BAD_WORD)?;
    let channel = text_words::channel(channel).ok_or(BAD_WORD)?;
    let number = u64::from(text_words::number(number).ok_or(BAD_WORD)?);
    Ok(calls(side, Call::Abort(channel.key(side), number)))
}

#[tactic(auto, unfolding(crate::specs::Steps::step_by))]
fn invoke(alloc: Global, words: &[&str]) -> Result<LineStep, LineFault>
    ensures { Gives (λ s. s) result (step_by StepWord.Invoke (map (λ w. w.now) words.now)) }
{
    let [side, channel, handle, method, expect, rest @ ..] = words else {
        return Err(BAD_WORD);
    };
    let side = text_words::side(side).ok_or(BAD_WORD)?;
    let channel = text_words::channel(channel).ok_or(BAD_WORD)?;
    let handle = u64::from(text_words::number(handle).ok_or(BAD_WORD)?);
    let method = text_words::method(alloc, method)?.ok_or(BAD_WORD)?;
    let expect = text_words::expect(expect).ok_or(BAD_WORD)?;
    let args = rest::arguments(alloc, rest)?;
    Ok(calls(
        side,
        Call::Invoke(channel.key(side), handle, method, args, expect),
    ))
}

#[tactic(auto, unfolding(crate::specs::Steps::step_by))]
fn release(words: &[&str]) -> Result<LineStep, LineFault>
    ensures { Gives (λ s. s) result (step_by StepWord.Release (map (λ w. w.now) words.now)) }
{
    let [side, channel, owner, number] = words else {
        return Err(BAD_WORD);
    };
    let side = text_words::side(side).ok_or(BAD_WORD)?;
    let channel = text_words::channel(channel).ok_or(BAD_WORD)?;
    let own = text_words::owner(owner).ok_or(BAD_WORD)?;
    let number = u64::from(text_words::number(number).ok_or(BAD_WORD)?);
    let handle = HandleKey { number, own };
    Ok(calls(side, Call::Release(channel.key(side), handle)))
}

#[tactic(auto, unfolding(crate::specs::Steps::step_by))]
fn outcome(words: &[&str]) -> Result<LineStep, LineFault>
    ensures { Gives (λ s. s) result (step_by StepWord.Outcome (map (λ w. w.now) words.now)) }
{
    let [side, channel, number] = words else {
        return Err(BAD_WORD);
    };
    let side = text_words::side(side).ok_or(BAD_WORD)?;
    let channel = text_words::channel(channel).ok_or(BAD_WORD)?;
    let number = u64::from(text_words::number(number).ok_or(BAD_WORD)?);
    Ok(calls(side, Call::Outcome(channel.key(side), number)))
}

#[tactic(auto, unfolding(crate::specs::Steps::step_by))]
fn forget(words: &[&str]) -> Result<LineStep, LineFault>
    ensures { Gives (λ s. s) result (step_by StepWord.Forget (map (λ w. w.now) words.now)) }
{
    let [side, channel, number] = words else {
        return Err(BAD_WORD);
    };
    let side = text_words::side(side).ok_or(BAD_WORD)?;
    let channel = text_words::channel(channel).ok_or(BAD_WORD)?;
    let number = u64::from(text_words::number(number).ok_or(BAD_WORD)?);
    Ok(calls(side, Call::Forget(channel.key(side), number)))
}

#[tactic(auto, unfolding(crate::specs::Steps::step_by))]
fn deliver(words: &[&str]) -> Result<LineStep, LineFault>
    ensures { Gives (λ s. s) result (step_by StepWord.Deliver (map (λ w. w.now) words.now)) }
{
    let [side, count] = words else {
        return Err(BAD_WORD);
    };
    let side = text_words::side(side).ok_or(BAD_WORD)?;
    let count = text_words::count(count).ok_or(BAD_WORD)?;
    Ok(plain(Step::Deliver(side, count)))
}

#[tactic(auto, unfolding(crate::specs::Steps::step_by))]
fn end(words: &[&str]) -> Result<LineStep, LineFault>
    ensures { Gives (λ s. s) result (step_by StepWord.End (map (λ w. w.now) words.now)) }
{
    let [side] = words else {
        return Err(BAD_WORD);
    };
    let side = text_words::side(side).ok_or(BAD_WORD)?;
    Ok(plain(Step::End(side)))
}

/// What a step word and the words behind it mean.
fn step_by(alloc: Global, word: StepWord, words: &[&str]) -> Result<LineStep, LineFault>
    ensures { Gives (λ s. s) result (step_by word (map (λ w. w.now) words.now)) }
{
    match word {
        StepWord::Offer => offer(alloc, words),
        StepWord::Accept => accept(words),
        StepWord::Write => write(alloc, words),
        StepWord::Fill => fill(alloc, words),
        StepWord::Read => read(words),
        StepWord::Complete => complete(words),
        StepWord::Terminate => terminate(words),
        StepWord::Attach => attach(words),
        StepWord::Request => request(alloc, words),
        StepWord::Notify => notify(alloc, words),
        StepWord::Result => result(alloc, words),
        StepWord::Object => object(alloc, words),
        StepWord::Sequence => sequence(alloc, words),
        StepWord::Fault => fault(alloc, words),
        StepWord::Cancel => cancel(words),
        StepWord::Report => report(alloc, words),
        StepWord::Reports => reports(words),
        StepWord::Next => next(words),
        StepWord::Abort => abort(words),
        StepWord::Invoke => invoke(alloc, words),
        StepWord::Release => release(words),
        StepWord::Outcome => outcome(words),
        StepWord::Forget => forget(words),
        StepWord::Deliver => deliver(words),
        StepWord::End => end(words),
    }
}

/// What a first word and the words behind it mean.
fn step_behind(alloc: Global, first: &str, words: &[&str]) -> Result<LineStep, LineFault>
    ensures { Gives (λ s. s) result (step_behind (step_word_in first.now) (map (λ w. w.now) words.now)) }
{
    match step_word(first) {
        Some(word) => step_by(alloc, word, words),
        None => Err(LineFault::Refused(ScriptReason::UnknownStep)),
    }
}

/// What a line's words mean.
#[tactic(auto, unfolding(crate::specs::Steps::step_in))]
pub fn step(alloc: Global, words: &[&str]) -> Result<LineStep, LineFault>
    ensures { Gives (λ s. s) result (step_in (map (λ w. w.now) words.now)) }
{
    match words {
        [first, words @ ..] => step_behind(alloc, first, words),
        [] => Err(LineFault::Refused(ScriptReason::UnknownStep)),
    }
}

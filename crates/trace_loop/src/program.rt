//! The loop over the lines of a source.
ghost use Rattle.std.specs.Prelude.{◌≡◌, ◌<◌, ◌≤◌, ◌+◌, ◌^◌, [], ◌++◌, ◌⊎◌, IfOk, OnOk};
ghost use Rattle.board_io.specs.Faults.{Rose};
ghost use Rattle.trace_loop.specs.Text.{memory_fault_text};
ghost use Rattle.trace_loop.specs.Progress.{standing, finished};
ghost use Rattle.trace_loop.specs.Outcome.{IsSaid, KeepsSink, Leaves, Said};
ghost use Rattle.trace_loop.specs.private.Going.{RunEnds, ends_of};

use crate::answerer::{Answerer, answer_line};
use crate::ended::Ended;
use crate::feed::Feed;
use crate::lines::Lines;
use crate::output::{put_all, say};
use board_io::{Failed, Sink, Source};
use clk_units::NoMemory;
use std::alloc::Global;

/// What is printed where the source failed.
const SOURCE_FAULT: &[u8] = b"fault source\n";

/// What is printed where memory ran out.
pub const MEMORY_FAULT: &[u8] = b"fault memory\n";

/// Has the lines that the source gives answered, and puts what they print. Each line whose end was given is answered,
/// and its block is put, before more is taken.
pub fn answer_lines<E: Drop, T: Answerer<E>, S: Source, K: Sink>(
    alloc: Global,
    answerer: &mut T,
    source: &mut S,
    sink: &mut K,
) -> Ended<E>
    requires { T.may 1 answerer.old }
    ensures { Leaves T.answer T.closing answerer.old (S.input source.old) (S.input source.new)
        (K.output sink.old) (K.output sink.new) result }
{
    let mut feed = Feed::new(alloc);
    answer_fed(&mut feed, answerer, source, sink)
}

/// The same, with a feed that holds nothing yet.
fn answer_fed<E: Drop, T: Answerer<E>, S: Source, K: Sink>(
    feed: &mut Feed,
    answerer: &mut T,
    source: &mut S,
    sink: &mut K,
) -> Ended<E>
    requires may { T.may 1 answerer.old }
    requires lines { feed.old.lines ≡ record { number = 0; line = []; text = []; left = [] } }
    requires out { feed.old.out.items ≡ [] }
    ensures over { RunEnds T.answer T.closing answerer.old
        (ends_of (S.input source.old) (K.output sink.old))
        (ends_of (S.input source.new) (K.output sink.new)) result }
    ensures sink { KeepsSink Ended.SinkFault result (K.output sink.old) (K.output sink.new) }
{
    'lines: loop {
        match feed.lines.advance() {
            Ok(true) => {
                let lines = &feed.lines;
                let mut end = None;
                match answer_line(
                    answerer,
                    lines.number(),
                    lines.line(),
                    &mut feed.out,
                    &mut end,
                ) {
                    Ok(()) => match end {
                        None => {}
                        Some(end) => {
                            return say(sink, &feed.out, Ended::By(end), Ended::SinkFault);
                        }
                    },
                    Err(NoMemory) => return want_memory(sink, &feed.out),
                }
            }
            Ok(false) => {
                if put_all(sink, &feed.out).is_err() {
                    return Ended::SinkFault;
                }
                feed.out.clear();
                match feed.lines.refill(source) {
                    Ok(0) => return end_input(answerer, &feed.lines, &mut feed.out, sink),
                    Ok(_) => {}
                    Err(Failed) => {
                        return say(sink, SOURCE_FAULT, Ended::SourceFault, Ended::SinkFault);
                    }
                }
            }
            Err(NoMemory) => return want_memory(sink, &feed.out),
        }
    }
}

/// Answers the end of the input.
fn end_input<E: Drop, T: Answerer<E>, K: Sink>(
    answerer: &mut T,
    lines: &Lines,
    out: &mut Vec<u8>,
    sink: &mut K,
) -> Ended<E>
    requires room { lines.now.number + 2 < 2 ^ 63 }
    requires may { T.may (lines.now.number + 1) answerer.old }
    requires empty { out.old.items ≡ [] }
    ensures said { let ran = finished T.answer T.closing
        (standing (lines.now.number + 1) lines.now.text answerer.old []) in
        Said (Ended.By ran.end) result (K.output sink.old).contents (K.output sink.new).contents ran.text
        (Rose (K.output sink.old).faults (K.output sink.new).faults)
        ⊎ Said Ended.NoMemory result (K.output sink.old).contents (K.output sink.new).contents
        memory_fault_text (Rose (K.output sink.old).faults (K.output sink.new).faults) }
    ensures sink { KeepsSink Ended.SinkFault result (K.output sink.old) (K.output sink.new) }
    ensures counted { (K.output sink.old).faults ≤ (K.output sink.new).faults }
{
    match finish(answerer, lines.number() + 1, lines.text(), out) {
        Ok(end) => say(sink, out, Ended::By(end), Ended::SinkFault),
        Err(NoMemory) => say(sink, MEMORY_FAULT, Ended::NoMemory, Ended::SinkFault),
    }
}

/// Answers the end of the input in or before a line: appends what is printed, and answers how the trace ends.
fn finish<E: Drop, T: Answerer<E>>(
    answerer: &mut T,
    line: u64,
    text: &[u8],
    out: &mut Vec<u8>,
) -> Result<E, NoMemory>
    requires room { line + 1 < 2 ^ 63 }
    requires may { T.may line answerer.old }
    ensures printed { OnOk result (out.new.items ≡ out.old.items
        ++ (finished T.answer T.closing (standing line text.now answerer.old [])).text) }
    ensures ends { IfOk result
        (λ end. end ≡ (finished T.answer T.closing (standing line text.now answerer.old [])).end) }
{
    if text.is_empty() {
        return answerer.close(line, out);
    }
    let mut end = None;
    answer_line(answerer, line, text, out, &mut end)?;
    match end {
        Some(end) => Ok(end),
        None => answerer.close(line + 1, out),
    }
}

/// Writes what was answered before memory ran out, and then says so.
#[tactic(auto, unfolding(crate::specs::Text::memory_fault_text))]
fn want_memory<E: Drop, K: Sink>(sink: &mut K, out: &[u8]) -> Ended<E>
    ensures { IsSaid Ended.SinkFault Ended.NoMemory result (K.output sink.old) (K.output sink.new)
        (out.now ++ memory_fault_text) }
{
    if put_all(sink, out).is_err() {
        return Ended::SinkFault;
    }
    say(sink, MEMORY_FAULT, Ended::NoMemory, Ended::SinkFault)
}

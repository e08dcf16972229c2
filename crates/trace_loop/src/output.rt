//! Texts that are put into a sink, or after one another.
ghost use Rattle.std.specs.Prelude.{◌≡◌, ◌<◌, ◌++◌, length, OnOk, OnErr};
ghost use Rattle.std.specs.List.{flat_map};
ghost use Rattle.std.specs.Vec.{vec_items};
ghost use Rattle.trace_loop.specs.Outcome.{IsPutAll, IsSaid};

use board_io::{Failed, Sink};
use clk_units::NoMemory;

/// Puts a whole text into a sink. After an `Err` the sink has taken a prefix of the text.
pub fn put_all<K: Sink>(sink: &mut K, text: &[u8]) -> Result<(), Failed>
    ensures put { IsPutAll (K.output sink.old) (K.output sink.new) text.now result }
    ensures some { OnErr result (0 < length text.now) }
{
    let mut put = 0;
    while put < text.len() {
        put += sink.put(&text[put..])?;
    }
    Ok(())
}

/// Puts a whole text into a sink and answers `end`, or `fault` where the sink failed.
pub fn say<R: Drop, K: Sink>(sink: &mut K, text: &[u8], end: R, fault: R) -> R
    ensures { IsSaid fault end result (K.output sink.old) (K.output sink.new) text.now }
{
    match put_all(sink, text) {
        Ok(()) => end,
        Err(Failed) => fault,
    }
}

/// Puts whole texts one after another. After an `Err` the sink has taken a prefix of them all.
fn put_each<K: Sink>(sink: &mut K, texts: &[Vec<u8>]) -> Result<(), Failed>
    ensures { IsPutAll (K.output sink.old) (K.output sink.new) (flat_map vec_items texts.now) result }
{
    for text in texts {
        put_all(sink, text)?;
    }
    Ok(())
}

/// Puts whole texts into a sink, one after another, and answers `end`, or `fault` where the sink failed.
pub fn say_each<R: Drop, K: Sink>(sink: &mut K, texts: &[Vec<u8>], end: R, fault: R) -> R
    ensures { IsSaid fault end result (K.output sink.old) (K.output sink.new)
        (flat_map vec_items texts.now) }
{
    match put_each(sink, texts) {
        Ok(()) => end,
        Err(Failed) => fault,
    }
}

/// Appends bytes. After an `Err` the text is as it was.
pub(crate) fn append(out: &mut Vec<u8>, bytes: &[u8]) -> Result<(), NoMemory>
    ensures ok { OnOk result (out.new.items ≡ out.old.items ++ bytes.now) }
    ensures err { OnErr result (out.new.items ≡ out.old.items) }
{
    out.extend_from_slice(bytes).map_err(|_| NoMemory)
}

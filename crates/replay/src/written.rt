//! Writing text out.
ghost use Rattle.std.specs.Prelude.{◌≡◌, ◌++◌, List, [], ℕ, Option, OnOk, OnErr, IfErr};
ghost use Rattle.std.specs.Io.KnownBytes.{Appends};
ghost use Rattle.replay.specs.Run.{AppendsFront, Stands, Falls};
ghost use Rattle.replay.specs.Told.{pending};
ghost use Rattle.replay.specs.declared.fault.LineFault.TheVariants as line_fault;

use crate::fault::LineFault;
use hub_rows::Flush;
use std::io::Write;

/// Writes the text, and leaves none of it.
#[tactic(auto, using(crate::proofs::Facts::stands_front, crate::proofs::Facts::stands_more))]
pub fn write_out<W: Write>(text: &mut Vec<u8>, writer: &mut W) -> Result<(), LineFault>
    ensures empty { text.new.items ≡ [] }
    ensures ok { OnOk result ((start : Option (List ℕ)) (ahead whole : List ℕ) →
        Stands start (W.contents writer.old) (text.old.items ++ ahead) whole →
        Stands start (W.contents writer.new) ahead whole) }
    ensures fault { OnErr result ((start : Option (List ℕ)) (ahead whole : List ℕ) →
        Stands start (W.contents writer.old) (text.old.items ++ ahead) whole →
        Falls start (W.contents writer.new) text.new.items whole) }
    ensures kind { IfErr result (λ f. f ≡ line_fault.Write) }
{
    let result = write_slice(text.as_slice(), writer);
    text.clear();
    result
}

/// Writes of the text what can be written after a fault, unless changes wait that it tells of.
#[tactic(auto, using(crate::proofs::Facts::stands_part, crate::proofs::Facts::falls_part))]
pub fn write_last<W: Write>(text: &mut Vec<u8>, writer: &mut W, when: Flush)
    ensures front { (start : Option (List ℕ)) (ahead whole : List ℕ) →
        Stands start (W.contents writer.old) (text.old.items ++ ahead) whole →
        AppendsFront start (W.contents writer.new) whole }
    ensures pending { (start : Option (List ℕ)) (ahead whole : List ℕ) →
        Stands start (W.contents writer.old) (pending when text.old.items ++ ahead) whole →
        AppendsFront start (W.contents writer.new) whole }
{
    match when {
        Flush::AtOnce => match write_out(text, writer) {
            Ok(()) => {}
            Err(_) => {}
        },
        Flush::Later => {}
    }
}

/// A text of so many bytes is written at once.
const WRITE_SIZE: usize = 65_536;

/// Whether a text is written at once.
pub fn is_long(text: &[u8]) -> bool {
    text.len() >= WRITE_SIZE
}

/// Writes the text.
#[tactic(auto, using(crate::proofs::Facts::wrote_none, crate::proofs::Facts::wrote_more, crate::proofs::Facts::wrote_front, crate::proofs::Facts::wrote_all))]
fn write_slice<W: Write>(text: &[u8], writer: &mut W) -> Result<(), LineFault>
    ensures ok { OnOk result (Appends (W.contents writer.old) (W.contents writer.new) text.now) }
    ensures fault { OnErr result (AppendsFront (W.contents writer.old) (W.contents writer.new) text.now) }
    ensures kind { IfErr result (λ f. f ≡ line_fault.Write) }
{
    let mut rest = text;
    while !rest.is_empty() {
        match writer.write(rest) {
            Ok(0) => return Err(LineFault::Write),
            Ok(n) => rest = rest.split_at(n).1,
            Err(_) => return Err(LineFault::Write),
        }
    }
    Ok(())
}

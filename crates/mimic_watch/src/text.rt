//! Texts in memory, and texts that may be empty.
ghost use Rattle.std.specs.Prelude.{◌≡◌, ◌++◌, ℕ, IfOk, List, Some};
ghost use Rattle.std.specs.Global.{Vec};
ghost use Rattle.mimic_printer.specs.Sink.{Adds, writer_of};
ghost use Rattle.mimic_printer.specs.declared.sink.Sink.{Sink};
ghost use Rattle.mimic_watch.specs.Frames.{headed};

use mimic_printer::Sink;
use std::alloc::AllocError;
use std::io::Write;

// Returns what the sink had, and all that was added to it. A fault of a sink in memory is refused memory.
pub(crate) fn text_of(sink: Sink<Vec<u8>>) -> Result<Vec<u8>, AllocError>
    ensures { (old : Sink (Vec ℕ)) (text : List ℕ) → Adds (λ (v : Vec ℕ). Some v.items) old sink text
        → IfOk result (λ v. v.items ≡ (writer_of old).items ++ text) }
{
    if sink.has_fault() {
        return Err(AllocError);
    }
    Ok(sink.into_inner())
}

// Adds the text with the head before it, and nothing if the text is empty.
pub(crate) fn add_headed<W: Write>(sink: &mut Sink<W>, head: &[u8], text: &[u8])
    ensures { Adds W.contents sink.old sink.new (headed head.now text.now) }
{
    if !text.is_empty() {
        sink.add(head);
        sink.add(text);
    }
}

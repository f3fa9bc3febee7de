//! Texts of registers: at most 1,024 bytes of UTF-8.
ghost use Rattle.std.specs.Prelude.{◌≡◌, ◌↔◌, IsTrue, IfOk};
ghost use Rattle.serde_json.specs.Data.{string};
ghost use Rattle.serde_json.specs.View.{view};
ghost use Rattle.vector_clock.specs.Stamp.{IsStamp};
ghost use Rattle.register_crdts.specs.Text.{IsText, IsTextAt};

use crdt_laws::{NoMemory, Txt, is_within};
use serde_json::Value;
use std::alloc::Global;
use vector_clock::Stamp;

/// Whether the text may be set at this stamp.
pub(crate) fn is_text_at(stamp: &Stamp, text: &Txt) -> bool
    requires { IsStamp stamp.now }
    ensures { IsTrue result ↔ IsTextAt stamp.now text.now }
{
    is_within(stamp) && text.items.len() <= 1024 && text.is_utf8()
}

/// The text as a JSON string.
pub(crate) fn show_text(alloc: Global, text: &Txt) -> Result<Value, NoMemory>
    requires { IsText text.now }
    ensures { IfOk result (λ v. view v ≡ string text.now) }
{
    Ok(Value::String(text.to_string(alloc)?))
}

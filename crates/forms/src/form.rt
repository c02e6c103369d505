//! Kinds of lines.

ghost use Rattle.std.specs.Prelude.{◌≡◌, ℕ, List, Result as Outcome};
ghost use Rattle.forms.specs.Outcome.{map_ok};
ghost use Rattle.forms.specs.declared.fault.Fault.{Fault as LineFault};

use crate::fault::Fault;

/// A kind of line: what the text of such a line says. `Said` is what it says apart from memory, which `denotes` reads off an item.
pub trait LineForm {
    type Item: Copy;

    ghost Said: { Type 0 };

    ghost denotes: { Self.Item → Said };

    ghost says: { Self → List ℕ → Outcome Said LineFault };

    /// What a line says; its line feed is not part of the text.
    fn read(&self, body: &[u8]) -> Result<Self::Item, Fault>
        ensures { map_ok denotes result ≡ says self.now body.now };
}

// The text of an array file's header (document 02, W2 and W12): what a right text is stands in specs/Text.antt, how it
// is read in specs/Reading.antt, and that this is exact in specs/Headers.antt. A crate needs a function: this one.
#![tactic(auto)]

ghost use Rattle.std.specs.Prelude.{◌≡◌};
ghost use Rattle.npy_grammar.specs.Reading.{is_quote};

pub fn is_quote(b: u8) -> bool
    ensures { result ≡ is_quote b }
{
    (b == 39) | (b == 34)
}

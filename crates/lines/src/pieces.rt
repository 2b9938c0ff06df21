ghost use Rattle.std.specs.Prelude.{◌≡◌, ◌==◌, [], ◌∷◌, MatchOption, position};
ghost use Rattle.std.specs.Iterator.{item_count};
ghost use Rattle.lines.specs.Pieces.{pieces};
ghost use Rattle.lines.specs.Left.{left, none_left, separator_of};

/// The pieces of a text, cut at a byte, that are still to be handed out: one piece more than the
/// text has such bytes.
#[derive(Clone, Copy)]
pub struct Pieces<'a> {
    // what lies behind the last separator that was passed; none once every piece is handed out
    rest: Option<&'a [u8]>,
    // the byte at which the text is cut
    separator: u8,
}

impl<'a> Pieces<'a> {
    /// All the pieces of a text, cut at the byte `separator`.
    pub fn new(text: &'a [u8], separator: u8) -> Pieces<'a>
        ensures pieces { left result ≡ pieces separator text.now }
        ensures separator { separator_of result ≡ separator }
    {
        Pieces {
            rest: Some(text),
            separator,
        }
    }

    /// Whether every piece has been handed out: the one before was then the last, with no separator
    /// behind it.
    #[tactic(auto, using(crate::proofs::Cuts::some_piece))]
    pub fn is_done(&self) -> bool
        ensures { result ≡ none_left (left self.now) }
    {
        self.rest.is_none()
    }
}

impl<'a> Iterator for Pieces<'a> {
    type Item = &'a [u8];

    ghost next_gives = { λ s piece t.
        MatchOption piece ((left s ≡ []) × (t ≡ s)) (λ w. left s ≡ w.now ∷ left t)
        × (separator_of t ≡ separator_of s) };

    ghost remaining = { item_count left };

    /// The next piece, without its separator; none once every piece has been handed out.
    fn next(&mut self) -> Option<&'a [u8]> {
        let rest = self.rest?;
        let (piece, behind) = cut(rest, self.separator);
        self.rest = behind;
        Some(piece)
    }
}

// What stands before the first byte that is `byte`, and what stands behind it; all of the text, and
// nothing behind, where no byte is.
#[tactic(auto, using(crate::proofs::Cuts::cuts))]
fn cut<'a>(text: &'a [u8], byte: u8) -> (&'a [u8], Option<&'a [u8]>)
    ensures { MatchOption result.1
        (pieces byte text.now ≡ result.0.now ∷ [])
        (λ rest. pieces byte text.now ≡ result.0.now ∷ pieces byte rest.now) }
{
    match place(text, byte) {
        Some(i) => (&text[..i], Some(&text[i + 1..])),
        None => (text, None),
    }
}

// The place of the first byte that is `byte`.
fn place(text: &[u8], byte: u8) -> Option<usize>
    ensures { result ≡ position (λ b. b == byte) text.now }
{
    text.iter().position(|b| *b == byte)
}

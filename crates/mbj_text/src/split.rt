ghost use Rattle.std.specs.Prelude.{◌≡◌, ◌==◌, ◌<◌, ◌∷◌, length, position, option_copied, IfSome};
ghost use Rattle.std.specs.Iterator.{YieldsFirstRef, item_count};
ghost use Rattle.mbj_text.specs.Cut.{cut};
ghost use Rattle.mbj_text.specs.Inside.Reading.{parts_left};

use std::marker::Model;

/// The parts of a text between the bytes that are `mark`, from left to right: those that are left.
#[derive(Drop)]
pub(crate) struct Split<'a> {
    rest: Option<&'a [u8]>,
    mark: u8,
}

impl<'a> Model for Split<'a> {
    ghost use Rattle.std.specs.Prelude.{List, ℕ, option_copied};
    ghost use Rattle.mbj_text.specs.Inside.Reading.{parts_left};

    ghost Value = { List (List ℕ) };

    ghost view = { λ p. parts_left p.mark (option_copied p.rest) };
}

impl<'a> Split<'a> {
    /// All parts of the text.
    pub(crate) fn new(text: &'a [u8], mark: u8) -> Split<'a>
        ensures { result ≡ cut mark text.now }
    {
        Split {
            rest: Some(text),
            mark,
        }
    }
}

impl<'a> Iterator for Split<'a> {
    type Item = &'a [u8];

    ghost next_gives = { YieldsFirstRef (λ left. left) };

    ghost remaining = { item_count (λ left. left) };

    fn next(&mut self) -> Option<&'a [u8]> {
        let (part, rest) = cut_once(self.rest?, self.mark);
        self.rest = rest;
        Some(part)
    }
}

/// The first part of the text, and what is behind the byte that ends it.
#[tactic(auto, using(crate::proofs::Cutting::cut_nowhere))]
fn cut_once(text: &[u8], mark: u8) -> (&[u8], Option<&[u8]>)
    ensures { cut mark text.now ≡ result.0.now ∷ parts_left mark (option_copied result.1) }
{
    match position(text, mark) {
        Some(end) => (&text[..end], Some(&text[end + 1..])),
        None => (text, None),
    }
}

fn position(text: &[u8], mark: u8) -> Option<usize>
    ensures found { result ≡ position (λ byte. byte == mark) text.now }
    ensures within { IfSome result (λ i. i < length text.now) }
{
    text.iter().position(|byte| *byte == mark)
}

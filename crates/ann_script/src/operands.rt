ghost use Rattle.std.specs.Prelude.{◌≡◌, [], MatchOption};
ghost use Rattle.std.specs.Iterator.{YieldsFirstBy, item_count};
ghost use Rattle.ann_script.specs.Grammar.{is_separator, parts};
ghost use Rattle.ann_script.specs.Operands.{front, later, given};
ghost use Rattle.ann_script.specs.Words.{words};

use crate::words::Words;

/// Whether a word separates the changes of a batch.
fn separates_changes(word: &[u8]) -> bool
    ensures { result ≡ is_separator word.now }
{
    word == b";".as_slice()
}

/// The words of one change: all words of a text, or those of a part that a word `;` ends.
#[derive(Drop)]
pub struct Operands<'a> {
    text: Words<'a>,
    is_part: bool,
    is_over: bool,
}

impl<'a> Operands<'a> {
    /// All words of a text.
    pub fn all(text: &'a [u8]) -> Operands<'a>
        ensures { given result ≡ words text.now }
    {
        Operands {
            text: Words { rest: text },
            is_part: false,
            is_over: false,
        }
    }

    /// The words of a text in front of the first `;`.
    pub fn part(text: &'a [u8]) -> Operands<'a>
        ensures { given result ≡ front (words text.now) }
    {
        Operands {
            text: Words { rest: text },
            is_part: true,
            is_over: false,
        }
    }
}

impl<'a> Iterator for Operands<'a> {
    type Item = &'a [u8];

    ghost next_gives = { YieldsFirstBy (λ w. w.now) given };

    ghost remaining = { item_count given };

    fn next(&mut self) -> Option<&'a [u8]> {
        if self.is_over {
            return None;
        }
        let word = self.text.next()?;
        if self.is_part && separates_changes(word) {
            self.is_over = true;
            return None;
        }
        Some(word)
    }
}

/// What stands behind the first `;` of a text, where it has one.
pub fn behind_separator(text: &[u8]) -> Option<&[u8]>
    ensures { MatchOption result
        (later (words text.now) ≡ [])
        (λ rest. later (words text.now) ≡ parts (words rest.now)) }
{
    let mut text = Words { rest: text };
    while let Some(word) = text.next() {
        if separates_changes(word) {
            return Some(text.rest);
        }
    }
    None
}

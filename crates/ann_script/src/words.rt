ghost use Rattle.std.specs.Prelude.{◌≡◌, ◌<◌, ◌≤◌, ◌∷◌, length, not, position};
ghost use Rattle.std.specs.List.{position_or_len};
ghost use Rattle.std.specs.Iterator.{YieldsFirstBy, item_count};
ghost use Rattle.std.specs.Str.Lines.{strip_carriage_return};
ghost use Rattle.ann_script.specs.Words.{is_blank, words};

/// Whether a byte separates words.
fn separates(byte: u8) -> bool
    ensures { result ≡ is_blank byte }
{
    byte == b' ' || byte == b'\t'
}

/// The place of the first blank.
fn first_blank(text: &[u8]) -> Option<usize>
    ensures { result ≡ position is_blank text.now }
{
    text.iter().position(|byte| separates(*byte))
}

/// The place of the first byte that is no blank.
fn first_of_word(text: &[u8]) -> Option<usize>
    ensures { result ≡ position (λ byte. not (is_blank byte)) text.now }
{
    text.iter().position(|byte| !separates(*byte))
}

/// The length of the word in front, or of the whole text where no blank stands in it.
#[tactic(auto, using(crate::proofs::Places::place_or_len))]
fn word_len(text: &[u8]) -> usize
    ensures len { result ≡ position_or_len is_blank text.now }
    ensures bound { result ≤ length text.now }
{
    first_blank(text).unwrap_or(text.len())
}

/// The number of blanks in front.
#[tactic(auto, using(crate::proofs::Places::place_or_len))]
fn blanks(text: &[u8]) -> usize
    ensures len { result ≡ position_or_len (λ byte. not (is_blank byte)) text.now }
    ensures bound { result ≤ length text.now }
{
    first_of_word(text).unwrap_or(text.len())
}

/// A text without the blanks in front. Where it isn't empty a word stands in front of it then.
fn without_blanks(text: &[u8]) -> &[u8]
    ensures words { words result.now ≡ words text.now }
    ensures front { 0 < length result.now → 0 < position_or_len is_blank result.now }
{
    &text[blanks(text)..]
}

/// The word in front of a text, and what stands behind it.
fn split_word(text: &[u8]) -> (&[u8], &[u8])
    requires { 0 < position_or_len is_blank text.now }
    ensures { words text.now ≡ result.0.now ∷ words result.1.now }
{
    text.split_at(word_len(text))
}

/// A line without the one carriage return at its end, if it has one.
pub fn without_return(line: &[u8]) -> &[u8]
    ensures { result.now ≡ strip_carriage_return line.now }
{
    match line {
        [front @ .., b'\r'] => front,
        _ => line,
    }
}

/// The words of a text, in order: what stands between blanks.
#[derive(Drop)]
pub struct Words<'a> {
    pub rest: &'a [u8],
}

impl<'a> Iterator for Words<'a> {
    type Item = &'a [u8];

    ghost next_gives = { YieldsFirstBy (λ w. w.now) (λ s. words s.rest.now) };

    ghost remaining = { item_count (λ s. words s.rest.now) };

    fn next(&mut self) -> Option<&'a [u8]> {
        let text = without_blanks(self.rest);
        if text.is_empty() {
            return None;
        }
        let (word, rest) = split_word(text);
        self.rest = rest;
        Some(word)
    }
}

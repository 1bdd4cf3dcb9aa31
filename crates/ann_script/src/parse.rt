ghost use Rattle.std.specs.Prelude.{◌≡◌, true, [], ◌∷◌};
ghost use Rattle.std.specs.List.{list_all};
ghost use Rattle.ann_script.specs.Words.{words};
ghost use Rattle.ann_script.specs.Order.{order_of, Find};
ghost use Rattle.ann_script.specs.Grammar.{components, vector, point, lone_tag, change, single, batch, search_of, merge_of, fill_of, command, command_of, is_name, is_name_byte, is_comment, line_of};
ghost use Rattle.ann_script.specs.Operands.{given};
ghost use Rattle.ann_script.specs.Parsed.{Parses};
ghost use Rattle.ann_script.specs.Sayings.{SaysLine};

use crate::change_list::ChangeList;
use crate::command::Command;
use crate::numbers::number;
use crate::operands::{Operands, behind_separator};
use crate::parse_refused::ParseRefused;
use crate::verbs::Verbs;
use crate::words::{Words, without_return};
use ann_types::{Ask, Change, Tag, Vector};
use std::alloc::Global;

/// The most components that a vector of a script has.
const MOST_COMPONENTS: usize = 1024;

/// The most changes that a batch has.
const MOST_CHANGES: u32 = 64;

/// The greatest seed of a fill.
const MOST_SEED: u64 = (1 << 31) - 1;

/// The most points of a fill.
const MOST_POINTS: u64 = 1_000_000;

/// What a line says.
pub enum Saying<'a> {
    /// Nothing: it has no word, or is a comment.
    Silent,
    /// The command of the client of this name.
    Says { name: &'a [u8], command: Command },
}

/// The components that the words are.
#[tactic(auto, using(crate::proofs::Behind::behind_steps))]
fn read_components(alloc: Global, operands: Operands<'_>) -> Result<Vec<u8>, ParseRefused>
    ensures { Parses (λ v. v.items) result (components (given operands.entry)) }
{
    let mut bytes = Vec::with_capacity(alloc, MOST_COMPONENTS)?;
    for word in operands {
        let Some(component) = number(word, 255) else {
            return Err(ParseRefused::Fault);
        };
        bytes.push(component as u8)?;
    }
    Ok(bytes)
}

/// The vector that the words are: 1 to 1024 components.
fn read_vector(alloc: Global, operands: Operands<'_>) -> Result<Vector, ParseRefused>
    ensures { Parses (λ v. v) result (vector (given operands.entry)) }
{
    let bytes = read_components(alloc, operands)?;
    if bytes.is_empty() || bytes.len() > MOST_COMPONENTS {
        return Err(ParseRefused::Fault);
    }
    Ok(Vector::copy(alloc, &bytes)?)
}

/// The tag and the vector of a point.
fn read_point(alloc: Global, mut operands: Operands<'_>) -> Result<(Tag, Vector), ParseRefused>
    ensures { Parses (λ p. p) result (point (given operands.entry)) }
{
    let Some(word) = operands.next() else {
        return Err(ParseRefused::Fault);
    };
    let Some(tag) = number(word, Tag::MAX) else {
        return Err(ParseRefused::Fault);
    };
    let vector = read_vector(alloc, operands)?;
    Ok((tag, vector))
}

/// The tag that is the one word.
fn read_lone_tag(mut operands: Operands<'_>) -> Result<Tag, ParseRefused>
    ensures { Parses (λ t. t) result (lone_tag (given operands.entry)) }
{
    let Some(word) = operands.next() else {
        return Err(ParseRefused::Fault);
    };
    match operands.next() {
        None => number(word, Tag::MAX).ok_or(ParseRefused::Fault),
        Some(_) => Err(ParseRefused::Fault),
    }
}

/// The change of which these are the verb and the operands.
fn read_change(alloc: Global, mut text: Operands<'_>) -> Result<Change, ParseRefused>
    ensures { Parses (λ c. c) result (change (given text.entry)) }
{
    let Some(verb) = text.next() else {
        return Err(ParseRefused::Fault);
    };
    if verb == b"insert".as_slice() {
        let (tag, vector) = read_point(alloc, text)?;
        return Ok(Change::Insert { tag, vector });
    }
    if verb == b"delete".as_slice() {
        let tag = read_lone_tag(text)?;
        return Ok(Change::Delete { tag });
    }
    if verb == b"replace".as_slice() {
        let (tag, vector) = read_point(alloc, text)?;
        return Ok(Change::Replace { tag, vector });
    }
    Err(ParseRefused::Fault)
}

/// The changes of a batch, of which this is the text behind the verb.
fn read_batch(alloc: Global, text: &[u8]) -> Result<ChangeList, ParseRefused>
    ensures { Parses (λ l. l) result (batch (words text.now)) }
{
    let mut changes = ChangeList::new(alloc);
    let mut rest = text;
    for _ in 0..MOST_CHANGES {
        changes.push(read_change(alloc, Operands::part(rest))?)?;
        match behind_separator(rest) {
            Some(behind) => rest = behind,
            None => return Ok(changes),
        }
    }
    Err(ParseRefused::Fault)
}

/// The search of which these are `K`, `L` and the components.
fn read_search(alloc: Global, mut operands: Operands<'_>) -> Result<Ask, ParseRefused>
    ensures { Parses (λ ask. Find ask.k ask.l ask.vector) result (search_of (given operands.entry)) }
{
    let Some(word) = operands.next() else {
        return Err(ParseRefused::Fault);
    };
    let Some(k) = number(word, 1000) else {
        return Err(ParseRefused::Fault);
    };
    let Some(word) = operands.next() else {
        return Err(ParseRefused::Fault);
    };
    let Some(l) = number(word, 1000) else {
        return Err(ParseRefused::Fault);
    };
    let vector = read_vector(alloc, operands)?;
    Ask::new(k as u16, l as u16, vector).ok_or(ParseRefused::Fault)
}

/// One change, which is no batch.
fn read_single(alloc: Global, text: &[u8]) -> Result<ChangeList, ParseRefused>
    ensures { Parses (λ l. l) result (single (words text.now)) }
{
    let mut changes = ChangeList::new(alloc);
    changes.push(read_change(alloc, Operands::all(text))?)?;
    Ok(changes)
}

/// The merge, where there is no operand.
fn read_merge(mut operands: Operands<'_>) -> Result<Command, ParseRefused>
    ensures { Parses order_of result (merge_of (given operands.entry)) }
{
    match operands.next() {
        None => Ok(Command::Merge),
        Some(_) => Err(ParseRefused::Fault),
    }
}

/// The numbers of a fill, where its tags end below 2^64.
fn fill(seed: &[u8], count: &[u8], first: &[u8]) -> Result<Command, ParseRefused>
    ensures { Parses order_of result (fill_of (seed.now ∷ count.now ∷ first.now ∷ [])) }
{
    match (
        number(seed, MOST_SEED),
        number(count, MOST_POINTS),
        number(first, Tag::MAX),
    ) {
        (Some(seed), Some(count), Some(first)) if count >= 1 && first <= Tag::MAX - (count - 1) => {
            Ok(Command::Fill {
                seed: seed as u32,
                count: count as u32,
                first,
            })
        }
        _ => Err(ParseRefused::Fault),
    }
}

/// The fill of which these are the seed, the number of points and the first tag.
fn read_fill(mut operands: Operands<'_>) -> Result<Command, ParseRefused>
    ensures { Parses order_of result (fill_of (given operands.entry)) }
{
    let Some(seed) = operands.next() else {
        return Err(ParseRefused::Fault);
    };
    let Some(count) = operands.next() else {
        return Err(ParseRefused::Fault);
    };
    let Some(first) = operands.next() else {
        return Err(ParseRefused::Fault);
    };
    match operands.next() {
        None => fill(seed, count, first),
        Some(_) => Err(ParseRefused::Fault),
    }
}

/// The command of which this is the text, verb and operands.
fn read_command(alloc: Global, text: &[u8]) -> Result<Command, ParseRefused>
    ensures { Parses order_of result (command (words text.now)) }
{
    let mut operands = Words { rest: text };
    let Some(verb) = operands.next() else {
        return Err(ParseRefused::Fault);
    };
    if verb == b"search".as_slice() {
        let ask = read_search(alloc, Operands::all(operands.rest))?;
        return Ok(Command::Search { ask });
    }
    if verb == b"batch".as_slice() {
        let changes = read_batch(alloc, operands.rest)?;
        return Ok(Command::Update {
            changes,
            batch: true,
        });
    }
    if verb == b"merge".as_slice() {
        return read_merge(Operands::all(operands.rest));
    }
    if verb == b"fill".as_slice() {
        return read_fill(Operands::all(operands.rest));
    }
    let changes = read_single(alloc, text)?;
    Ok(Command::Update {
        changes,
        batch: false,
    })
}

/// The command of which this is the text, where it has one of these verbs.
fn read_one_of(alloc: Global, verbs: Verbs, text: &[u8]) -> Result<Command, ParseRefused>
    ensures { Parses order_of result (command_of verbs (words text.now)) }
{
    let command = read_command(alloc, text)?;
    if verbs.has(&command) {
        Ok(command)
    } else {
        Err(ParseRefused::Fault)
    }
}

/// Whether each byte of a word may stand in a name.
fn has_name_bytes(word: &[u8]) -> bool
    ensures { result ≡ list_all is_name_byte word.now }
{
    word.iter().all(|byte| byte.is_ascii_alphanumeric() || *byte == b'_' || *byte == b'-')
}

/// Whether a word is a name: 1 to 16 letters, digits, `_` or `-`.
fn names(word: &[u8]) -> bool
    ensures value { result ≡ is_name word.now }
    ensures bytes { result ≡ true → list_all is_name_byte word.now ≡ true }
{
    1 <= word.len() && word.len() <= 16 && has_name_bytes(word)
}

/// Whether the word begins a comment.
fn comments(word: &[u8]) -> bool
    ensures { result ≡ is_comment word.now }
{
    matches!(word, [b'#', ..])
}

/// What a line says, where these are the script's verbs.
pub fn read_line(alloc: Global, verbs: Verbs, line: &[u8]) -> Result<Saying<'_>, ParseRefused>
    ensures { SaysLine result (line_of verbs line.now) }
{
    let mut text = Words {
        rest: without_return(line),
    };
    let Some(name) = text.next() else {
        return Ok(Saying::Silent);
    };
    if comments(name) {
        return Ok(Saying::Silent);
    }
    if !names(name) {
        return Err(ParseRefused::Fault);
    }
    let command = read_one_of(alloc, verbs, text.rest)?;
    Ok(Saying::Says { name, command })
}

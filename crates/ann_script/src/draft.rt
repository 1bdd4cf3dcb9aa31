ghost use Rattle.std.specs.Prelude.{◌≡◌, ◌+◌, ◌<◌, ◌^◌, [], ◌∷◌, ◌++◌, length, position};
ghost use Rattle.ann_script.specs.Script.{is_line_feed};
ghost use Rattle.ann_script.specs.Drafts.{IsOneLine, SplitsLine, Takes, Judges, Finishes};

use crate::parse_refused::ParseRefused;
use crate::script::Script;
use crate::script_refused::ScriptRefused;
use crate::verbs::Rules;
use std::alloc::Global;

/// A script of which a part was read: the clients with what the whole lines so far say, the number of the line that
/// comes next, and what there is of that line.
#[derive(Drop)]
pub(crate) struct Draft {
    script: Script,
    rules: Rules,
    number: u64,
    line: Vec<u8>,
}

/// The place of the first line feed.
fn line_len(text: &[u8]) -> Option<usize>
    ensures { result ≡ position is_line_feed text.now }
{
    text.iter().position(|byte| *byte == b'\n')
}

/// The bytes in front of the first line feed, and those behind it.
fn split_line(text: &[u8]) -> Option<(&[u8], &[u8])>
    ensures { SplitsLine text.now result }
{
    let Some(end) = line_len(text) else {
        return None;
    };
    Some((&text[..end], &text[end + 1..]))
}

impl Draft {
    /// The draft before the first byte of a script under these rules.
    pub(crate) fn new(alloc: Global, rules: Rules) -> Draft
        ensures script { result.script ≡ [] }
        ensures rules { result.rules ≡ rules }
        ensures number { result.number ≡ 1 }
        ensures line { result.line.items ≡ [] }
    {
        Draft {
            script: Script::new(alloc),
            rules,
            number: 1,
            line: Vec::new(alloc),
        }
    }

    /// The number of the line that comes next.
    pub(crate) fn number(&self) -> u64
        ensures { result ≡ self.now.number }
    {
        self.number
    }

    /// Judges the line that these bytes end. A line that stands in one piece isn't copied.
    fn judge(&mut self, alloc: Global, bytes: &[u8]) -> Result<(), ScriptRefused>
        ensures { Judges self.old self.new bytes.now result }
    {
        let said = if self.line.is_empty() {
            self.script.say(alloc, self.rules, bytes)
        } else {
            self.line.extend_from_slice(bytes)?;
            self.script.say(alloc, self.rules, &self.line)
        };
        match said {
            Ok(()) => Ok(()),
            Err(ParseRefused::Fault) => Err(ScriptRefused::Line {
                number: self.number,
            }),
            Err(ParseRefused::Memory(error)) => Err(ScriptRefused::Memory(error)),
        }
    }

    /// Takes the bytes up to a line feed, and the line feed.
    fn end_line(&mut self, alloc: Global, bytes: &[u8]) -> Result<(), ScriptRefused>
        requires draft { IsOneLine self.old.line.items }
        requires bytes { IsOneLine bytes.now }
        requires number { self.old.number < 2 ^ 32 }
        ensures { Takes self.old self.new (bytes.now ++ 10 ∷ []) result }
    {
        self.judge(alloc, bytes)?;
        self.line.clear();
        self.number += 1;
        Ok(())
    }

    /// Takes a piece of the script.
    pub(crate) fn take(&mut self, alloc: Global, piece: &[u8]) -> Result<(), ScriptRefused>
        requires draft { IsOneLine self.old.line.items }
        requires number { self.old.number + length piece.now < 2 ^ 32 }
        ensures { Takes self.old self.new piece.now result }
    {
        let mut rest = piece;
        while let Some((line, behind)) = split_line(rest) {
            self.end_line(alloc, line)?;
            rest = behind;
        }
        self.line.extend_from_slice(rest)?;
        Ok(())
    }

    /// The script, of which all was taken.
    pub(crate) fn finish(mut self, alloc: Global) -> Result<Script, ScriptRefused>
        requires { IsOneLine self.line.items }
        ensures { Finishes self result }
    {
        self.judge(alloc, b"")?;
        Ok(self.script)
    }
}

ghost use Rattle.std.specs.Prelude.{◌≡◌, ◌<◌, ◌≤◌, List, [], map, length, max, true, IfSome, IfOk, string_bytes, slice_get, position};
ghost use Rattle.std.specs.List.{list_all};
ghost use Rattle.std.specs.Str.{bytes_eq};
ghost use Rattle.ann_script.specs.Grammar.{is_name_byte};
ghost use Rattle.ann_script.specs.Order.{order_of};
ghost use Rattle.ann_script.specs.Script.{added, said};
ghost use Rattle.ann_script.specs.Parsed.{Becomes};
ghost use Rattle.ann_script.specs.Parts.{client_of};

use crate::command::Command;
use crate::parse::{Saying, read_line};
use crate::parse_refused::ParseRefused;
use crate::verbs::Rules;
use std::alloc::{AllocError, Global};
use std::marker::Model;

/// One client's part of a script.
#[derive(Debug, Drop)]
pub(crate) struct Part {
    name: String,
    commands: Vec<Command>,
}

/// A script: its clients in order of first naming, each with its commands in order.
#[derive(Debug, Drop)]
pub struct Script {
    parts: Vec<Part>,
}

impl Model for Script {
    ghost use Rattle.std.specs.Prelude.{List, map};
    ghost use Rattle.ann_script.specs.Script.{Client};

    ghost Value = { List Client };

    ghost use Rattle.ann_script.specs.Parts.{client_of};

    ghost view = { λ s. map client_of s.parts.items };

    ghost use Rattle.std.specs.Prelude.{length, ◌<◌, ◌^◌};

    ghost invariant = { λ s. length s.parts.items < 2 ^ 32 };
}

/// The place of the client of this name.
fn place_of(parts: &[Part], name: &[u8]) -> Option<usize>
    ensures { result ≡ position (λ p. bytes_eq (string_bytes p.name) name.now) parts.now }
{
    parts.iter().position(|part| part.name.as_bytes() == name)
}

/// A name of its own, of a word whose bytes may all stand in a name.
fn name_of(alloc: Global, word: &[u8]) -> Result<String, AllocError>
    requires { list_all is_name_byte word.now ≡ true }
    ensures { IfOk result (λ name. string_bytes name ≡ word.now) }
{
    let mut name = String::new(alloc);
    for byte in word {
        name.push(char::from(*byte))?;
    }
    Ok(name)
}

/// Adds a command to the client of this name, who is a new one where there is none of the name yet.
fn add(
    parts: &mut Vec<Part>,
    alloc: Global,
    room: u32,
    name: &[u8],
    command: Command,
) -> Result<(), ParseRefused>
    requires { list_all is_name_byte name.now ≡ true }
    ensures said { Becomes result
        (added room (map client_of parts.old.items) name.now (order_of command))
        (map client_of parts.new.items) }
    ensures size { length parts.new.items ≤ max (length parts.old.items) room }
{
    if let Some(at) = place_of(parts, name) {
        let part = &mut parts[at];
        part.commands.push(command)?;
        return Ok(());
    }
    if parts.len() >= room as usize {
        return Err(ParseRefused::Fault);
    }
    let mut commands = Vec::new(alloc);
    commands.push(command)?;
    let name = name_of(alloc, name)?;
    parts.push(Part { name, commands })?;
    Ok(())
}

impl Script {
    /// A script without clients.
    pub(crate) fn new(alloc: Global) -> Script
        ensures { result ≡ [] }
    {
        Script {
            parts: Vec::new(alloc),
        }
    }

    /// Adds what a line says, in a script under these rules.
    pub(crate) fn say(
        &mut self,
        alloc: Global,
        rules: Rules,
        line: &[u8],
    ) -> Result<(), ParseRefused>
        ensures { Becomes result (said rules self.old line.now) self.new }
    {
        match read_line(alloc, rules.verbs, line) {
            Err(refused) => Err(refused),
            Ok(Saying::Silent) => Ok(()),
            Ok(Saying::Says { name, command }) => {
                add(&mut self.parts, alloc, rules.clients, name, command)
            },
        }
    }

    /// How many clients there are.
    pub fn clients(&self) -> u32
        ensures { result ≡ length self.now }
    {
        self.parts.len() as u32
    }

    /// The commands of a client, in order.
    pub fn commands(&self, client: u32) -> &[Command]
        requires { client < length self.now }
        ensures { IfSome (slice_get self.now client) (λ c. map order_of result.now ≡ c.orders) }
    {
        &self.parts[client as usize].commands
    }

    /// The name of a client.
    pub fn name(&self, client: u32) -> &str
        requires { client < length self.now }
        ensures { IfSome (slice_get self.now client) (λ c. result.now ≡ c.name) }
    {
        &self.parts[client as usize].name
    }
}

// The fields of a preamble before its codebook.
ghost use Rattle.std.specs.Prelude.{◌≡◌, ◌≤◌, ◌+◌, Ok, length, MatchOption, true, false};
ghost use Rattle.ann_bytes.specs.LittleEndian.{number_of, field};
ghost use Rattle.ann_preamble.specs.Preamble.{fields_with, fields_one, fields_two, base_in, begins, fields_in, are_sound, are_limits, fields_of, no_base};

use crate::base::Base;
use ann_bytes::{Short, get_u16, get_u32, get_u64};
use ann_types::Params;

/// The fields of a preamble, as they stand. A file of version 1 has generation 0 and the empty base.
#[derive(Clone, Copy)]
pub(crate) struct Fields {
    d: u16,
    r: u16,
    l_build: u16,
    a: u16,
    b: u16,
    w: u16,
    m: u16,
    zero: u16,
    freeze_at: u32,
    pub(crate) generation: u64,
    pub(crate) base: Base,
}

const OPEN_TWO: [u8; 9] = *b"\x01ANNLOG02";

const OPEN_ONE: [u8; 9] = *b"\x01ANNLOG01";

const EMPTY: Base = Base {
    position: 0,
    next: 0,
    segment: 0,
};

/// The fields of a file of either version, where the bytes begin with an open made byte and the magic of one.
#[tactic(auto, unfolding(crate::specs::Preamble::fields_one))]
pub(crate) fn read_fields(bytes: &[u8]) -> Option<Fields>
    ensures { result ≡ fields_in bytes.now }
{
    if begins(bytes, 61, &OPEN_TWO) {
        return fields_of_two(bytes)
            .ok()
            .filter(|fields| fields.generation != 0);
    }
    if begins(bytes, 29, &OPEN_ONE) {
        return fields_before(bytes, 0, EMPTY).ok();
    }
    None
}

// Whether bytes begin with these, and are so many at least.
fn begins(bytes: &[u8], size: usize, front: &[u8; 9]) -> bool
    requires { 9 ≤ size }
    ensures { result ≡ begins size front.now bytes.now }
{
    size <= bytes.len() && bytes[..9] == front[..]
}

// The fields of version 2.
#[tactic(auto, unfolding(crate::specs::Preamble::fields_two))]
fn fields_of_two(bytes: &[u8]) -> Result<Fields, Short>
    requires { 61 ≤ length bytes.now }
    ensures { result ≡ Ok (fields_two bytes.now) }
{
    fields_before(bytes, get_u64(bytes, 29)?, base_at(bytes)?)
}

// The base of version 2.
#[tactic(auto, unfolding(crate::specs::Preamble::base_in))]
fn base_at(bytes: &[u8]) -> Result<Base, Short>
    requires { 61 ≤ length bytes.now }
    ensures { result ≡ Ok (base_in bytes.now) }
{
    Ok(Base {
        position: get_u64(bytes, 37)?,
        segment: get_u64(bytes, 45)?,
        next: get_u64(bytes, 53)?,
    })
}

// The fields that both versions have, with this generation and this base.
#[tactic(auto, unfolding(crate::specs::Preamble::fields_with))]
fn fields_before(bytes: &[u8], generation: u64, base: Base) -> Result<Fields, Short>
    requires { 29 ≤ length bytes.now }
    ensures { result ≡ Ok (fields_with bytes.now generation base) }
{
    Ok(Fields {
        d: u16_at(bytes, 9),
        r: u16_at(bytes, 11),
        l_build: u16_at(bytes, 13),
        a: u16_at(bytes, 15),
        b: u16_at(bytes, 17),
        w: u16_at(bytes, 19),
        m: u16_at(bytes, 21),
        zero: u16_at(bytes, 23),
        freeze_at: get_u32(bytes, 25)?,
        generation,
        base,
    })
}

// The number of two bytes, which are there.
#[inline]
fn u16_at(bytes: &[u8], at: usize) -> u16
    requires { at + 2 ≤ length bytes.now }
    ensures { result ≡ number_of (field bytes.now at 2) }
{
    get_u16(bytes, at).unwrap_or(0)
}

impl Fields {
    /// The parameters, where the fields are those of a log: the parameters are within their limits, the zero field is 0
    /// and the base is valid.
    pub(crate) fn params(&self) -> Option<Params>
        ensures { MatchOption result (are_sound self.now ≡ false)
            (λ p. (are_sound self.now ≡ true) × (fields_of p self.now.base self.now.generation ≡ self.now)) }
    {
        if self.zero != 0 || !self.base.is_valid() {
            return None;
        }
        Params::new(
            self.d,
            self.r,
            self.l_build,
            self.a,
            self.b,
            self.w,
            self.m,
            self.freeze_at,
        )
    }
}

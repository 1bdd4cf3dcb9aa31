// Writing a preamble.
ghost use Rattle.std.specs.Prelude.{◌≡◌, ◌≤◌, ◌+◌, ◌*◌, ◌++◌, true, length, drop, None};
ghost use Rattle.std.specs.List.{concat};
ghost use Rattle.ann_bytes.specs.LittleEndian.{with_field};
ghost use Rattle.ann_pq.specs.Format.{fault};
ghost use Rattle.ann_preamble.specs.Base.{is_base};
ghost use Rattle.ann_preamble.specs.Preamble.{preamble_of};
ghost use Rattle.ann_preamble.specs.Written.{params_fields, base_fields, preamble_bytes, IsReadAgain};

use crate::base::Base;
use ann_bytes::{put_u16, put_u32, put_u64};
use ann_types::Params;

const MAGIC: [u8; 8] = *b"ANNLOG02";

/// Bytes of a preamble of version 2 with its first gate, for vectors of d components.
pub fn size(d: u16) -> usize
    ensures { result ≡ 74 + 256 * d }
{
    74 + 256 * usize::from(d)
}

/// Writes a preamble of version 2 over the first bytes of `out`, with a made byte and a first gate that aren't open. `book`
/// has the bytes of the codebook. Takes no memory.
pub fn write(params: &Params, book: &[u8], base: &Base, generation: u64, out: &mut [u8])
    requires book { fault params.now.d params.now.m book.now ≡ None }
    requires base { is_base base.now ≡ true }
    requires generation { 1 ≤ generation }
    requires room { 74 + 256 * params.now.d ≤ length out.old }
    ensures written { out.new ≡
        preamble_bytes 0 params.now generation base.now book.now 0 ++ drop (74 + 256 * params.now.d) out.old }
    // As it was written the file has no preamble.
    ensures closed { preamble_of out.new ≡ None }
    // With an open made byte it is read again, whatever follows.
    ensures read_back { IsReadAgain params.now generation base.now book.now }
{
    put_bytes(out, 0, &[0]);
    put_bytes(out, 1, &MAGIC);
    put_params(params, out);
    put_u64(out, 29, generation);
    put_base(base, out);
    put_bytes(out, 61, book);
    put_bytes(out, 61 + book.len(), &[0]);
}

// Writes the parameters and the zero field.
fn put_params(params: &Params, out: &mut [u8])
    requires { 29 ≤ length out.old }
    ensures { out.new ≡ with_field out.old 9 (concat (params_fields params.now)) }
{
    put_u16(out, 9, params.d);
    put_u16(out, 11, params.r);
    put_u16(out, 13, params.l_build);
    put_u16(out, 15, params.a);
    put_u16(out, 17, params.b);
    put_u16(out, 19, params.w);
    put_u16(out, 21, params.m);
    put_u16(out, 23, 0);
    put_u32(out, 25, params.freeze_at);
}

// Writes the base.
fn put_base(base: &Base, out: &mut [u8])
    requires { 61 ≤ length out.old }
    ensures { out.new ≡ with_field out.old 37 (concat (base_fields base.now)) }
{
    put_u64(out, 37, base.position);
    put_u64(out, 45, base.segment);
    put_u64(out, 53, base.next);
}

// Writes bytes over those from a place on.
fn put_bytes(bytes: &mut [u8], at: usize, new: &[u8])
    requires { at + length new.now ≤ length bytes.old }
    ensures { bytes.new ≡ with_field bytes.old at new.now }
{
    bytes[at..at + new.len()].copy_from_slice(new);
}

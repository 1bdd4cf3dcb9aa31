ghost use Rattle.std.specs.Prelude.{option_map, ◌≡◌, ◌≤◌, ◌<◌, ◌==◌, length, position, false, None, map, string_bytes, Some, IfSome, IfNone};
ghost use Rattle.ann_commands.specs.Given.{setting_in, keeping_in};
ghost use Rattle.ann_commands.specs.Words.{graph_of, keeping_of, kept_given, kept_checked, kept_setting_of, init_setting, Setting, setting_of, is_within, pair_of, fraction_of, given_setting, once_setting, IsOnce, IsMade};

use ann_script::number;
use ann_types::Params;

/// Two numbers of at most 100.
fn pair(a: &[u8], b: &[u8]) -> Option<(u64, u64)>
    ensures value { result ≡ pair_of a.now b.now }
    ensures few { IfSome result (λ pair. (pair.0 ≤ 100) × (pair.1 ≤ 100)) }
{
    match (number(a, 100), number(b, 100)) {
        (Some(a), Some(b)) => Some((a, b)),
        _ => None,
    }
}

/// Where the first slash stands.
fn slash(word: &[u8]) -> Option<usize>
    ensures place { result ≡ position (λ byte. byte == 47) word.now }
    ensures inside { IfSome result (λ at. at < length word.now) }
{
    word.iter().position(|byte| *byte == b'/')
}

/// The numbers of `A/B`.
fn fraction(word: &[u8]) -> Option<(u64, u64)>
    ensures value { result ≡ fraction_of word.now }
    ensures few { IfSome result (λ pair. (pair.0 ≤ 100) × (pair.1 ≤ 100)) }
{
    match slash(word) {
        Some(at) => pair(&word[..at], &word[at + 1..]),
        None => None,
    }
}

/// The parameters of an index of `once`, where they are within their limits.
fn params_of(d: u64, r: u64, l_build: u64, a: u64, b: u64) -> Option<Params>
    requires sizes { (d ≤ 1024) × (r ≤ 128) × (l_build ≤ 1000) }
    requires alpha { (a ≤ 100) × (b ≤ 100) }
    ensures made { IfSome result (IsMade (record { d = d; r = r; l_build = l_build; a = a; b = b })) }
    ensures outside { IfNone result
        (is_within (record { d = d; r = r; l_build = l_build; a = a; b = b }) ≡ false) }
{
    Params::new(
        d as u16,
        r as u16,
        l_build as u16,
        a as u16,
        b as u16,
        1,
        1,
        100_000,
    )
}

/// The parameters that the words after `once` give.
fn given(d: &[u8], r: &[u8], l_build: &[u8], alpha: &[u8]) -> Option<Params>
    ensures made { IfSome result (λ p. (setting : Setting)
        × (given_setting d.now r.now l_build.now alpha.now ≡ Some setting)
        × IsMade setting p) }
    ensures none { IfNone result (given_setting d.now r.now l_build.now alpha.now ≡ None) }
{
    match (
        number(d, 1024),
        number(r, 128),
        number(l_build, 1000),
        fraction(alpha),
    ) {
        (Some(d), Some(r), Some(l_build), Some((a, b))) => params_of(d, r, l_build, a, b),
        _ => None,
    }
}

/// The parameters of `once D R L A/B`, where the words are that command within its limits.
pub(crate) fn once_params(words: &[String]) -> Option<Params>
    ensures once { IfSome result (IsOnce (map string_bytes words.now)) }
    ensures usage { IfNone result (once_setting (map string_bytes words.now) ≡ None) }
{
    match words {
        [name, d, r, l_build, alpha] if name.as_str() == "once" => given(
            d.as_bytes(),
            r.as_bytes(),
            l_build.as_bytes(),
            alpha.as_bytes(),
        ),
        _ => None,
    }
}

/// `D R L A/B`.
#[derive(Clone, Copy)]
struct Graph {
    d: u64,
    r: u64,
    l_build: u64,
    a: u64,
    b: u64,
}

/// `W M FREEZE`.
#[derive(Clone, Copy)]
struct Kept {
    w: u64,
    m: u64,
    freeze_at: u64,
}

/// The numbers of `D R L A/B`.
fn graph_words(d: &[u8], r: &[u8], l_build: &[u8], alpha: &[u8]) -> Option<Graph>
    ensures value { option_map setting_in result ≡ graph_of d.now r.now l_build.now alpha.now }
    ensures sizes { IfSome result (λ g. (g.d ≤ 1024) × (g.r ≤ 128) × (g.l_build ≤ 1000)) }
    ensures fraction { IfSome result (λ g. (g.a ≤ 100) × (g.b ≤ 100)) }
{
    match (
        number(d, 1024),
        number(r, 128),
        number(l_build, 1000),
        fraction(alpha),
    ) {
        (Some(d), Some(r), Some(l_build), Some((a, b))) => Some(Graph {
            d,
            r,
            l_build,
            a,
            b,
        }),
        _ => None,
    }
}

/// The numbers of `W M FREEZE`.
fn kept_words(w: &[u8], m: &[u8], freeze_at: &[u8]) -> Option<Kept>
    ensures value { option_map keeping_in result ≡ keeping_of w.now m.now freeze_at.now }
    ensures sizes { IfSome result (λ k. (k.w ≤ 16) × (k.m ≤ 64) × (k.freeze_at ≤ 100000)) }
{
    match (number(w, 16), number(m, 64), number(freeze_at, 100_000)) {
        (Some(w), Some(m), Some(freeze_at)) => Some(Kept { w, m, freeze_at }),
        _ => None,
    }
}

/// The parameters of a kept index, where they are within their limits.
fn kept_params(graph: &Graph, kept: &Kept) -> Option<Params>
    requires sizes { (graph.now.d ≤ 1024) × (graph.now.r ≤ 128) × (graph.now.l_build ≤ 1000) }
    requires alpha { (graph.now.a ≤ 100) × (graph.now.b ≤ 100) }
    requires kept { (kept.now.w ≤ 16) × (kept.now.m ≤ 64) × (kept.now.freeze_at ≤ 100000) }
    ensures { option_map kept_setting_of result ≡ kept_checked (setting_in graph.now) (keeping_in kept.now) }
{
    Params::new(
        graph.d as u16,
        graph.r as u16,
        graph.l_build as u16,
        graph.a as u16,
        graph.b as u16,
        kept.w as u16,
        kept.m as u16,
        kept.freeze_at as u32,
    )
}

/// The parameters that the seven words after `init` give.
fn given_init(
    d: &[u8],
    r: &[u8],
    l_build: &[u8],
    alpha: &[u8],
    w: &[u8],
    m: &[u8],
    freeze_at: &[u8],
) -> Option<Params>
    ensures { option_map kept_setting_of result ≡ kept_given
        (graph_of d.now r.now l_build.now alpha.now)
        (keeping_of w.now m.now freeze_at.now) }
{
    let graph = graph_words(d, r, l_build, alpha)?;
    let kept = kept_words(w, m, freeze_at)?;
    kept_params(&graph, &kept)
}

/// The parameters of `init D R L A/B W M FREEZE`, where the words are that command within its limits.
pub(crate) fn init_params(words: &[String]) -> Option<Params>
    ensures { option_map kept_setting_of result ≡ init_setting (map string_bytes words.now) }
{
    match words {
        [name, d, r, l_build, alpha, w, m, freeze_at] if name.as_str() == "init" => given_init(
            d.as_bytes(),
            r.as_bytes(),
            l_build.as_bytes(),
            alpha.as_bytes(),
            w.as_bytes(),
            m.as_bytes(),
            freeze_at.as_bytes(),
        ),
        _ => None,
    }
}

ghost use Rattle.std.specs.Prelude.{◌≡◌, map, string_bytes};
ghost use Rattle.ann_commands.specs.Words.{workers_of, is_check as check_in, is_truth as truth_in};

use ann_script::number;

/// The most workers of a run.
const MOST_WORKERS: u64 = 16;

/// The workers of the command `run`, where the words are one.
pub fn is_run(words: &[String]) -> Option<u32>
    ensures { result ≡ workers_of (map string_bytes words.now) }
{
    match words {
        [name, workers] if name.as_str() == "run" => match number(
            workers.as_bytes(),
            MOST_WORKERS,
        ) {
            Some(workers) if workers >= 1 => Some(workers as u32),
            _ => None,
        },
        _ => None,
    }
}

/// Whether the words are the command `truth`.
pub fn is_truth(words: &[String]) -> bool
    ensures { result ≡ truth_in (map string_bytes words.now) }
{
    match words {
        [name] => name.as_str() == "truth",
        _ => false,
    }
}

/// Whether the words are the command `check`.
pub(crate) fn is_check(words: &[String]) -> bool
    ensures { result ≡ check_in (map string_bytes words.now) }
{
    match words {
        [name] => name.as_str() == "check",
        _ => false,
    }
}

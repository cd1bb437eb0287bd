ghost use Rattle.std.specs.Prelude.{◌≡◌, IfOk, map, string_bytes, ◌++◌};
ghost use Rattle.std.specs.Str.{bytes_eq};
ghost use Rattle.zim_cli.specs.Job.{job_of, is_operand, is_output_of};

use crate::jobs::Job;
use std::alloc::Global;
use zim_fault::{Bytes, Memory};

/// The option that stands before BASE.
const OUT: &[u8] = b"--out";

/// Whether a word can stand for a file: it isn't empty and doesn't begin with a minus sign.
fn is_file_word(word: &[u8]) -> bool
    ensures { result ≡ is_operand word.now }
{
    match word.first() {
        Some(b) => *b != b'-',
        None => false,
    }
}

/// Whether a text is a front and then an ending.
fn is_joined(text: &[u8], front: &[u8], ending: &[u8]) -> bool
    ensures { result ≡ bytes_eq text.now (front.now ++ ending.now) }
{
    match text.strip_prefix(front) {
        Some(rest) => rest == ending,
        None => false,
    }
}

/// Whether a model's name is that of a file that its own compilation would write.
fn is_output(base: &[u8], model: &[u8]) -> bool
    ensures { result ≡ is_output_of base.now model.now }
{
    is_joined(model, base, b".lp")
        || is_joined(model, base, b".mps")
        || is_joined(model, base, b".tbl")
}

/// The job that the words are, or None where they are no job: the words are MODEL, `--out` and BASE;
/// MODEL and BASE aren't empty and don't begin with `-`, and MODEL isn't BASE followed by `.lp`,
/// `.mps` or `.tbl`. `Memory` comes only for want of memory.
pub fn job(alloc: Global, words: &[String]) -> Result<Option<Job>, Memory>
    ensures { IfOk result (λ read. read ≡ job_of (map string_bytes words.now)) }
{
    match words {
        [model, option, base] => {
            let model = model.as_bytes();
            let base = base.as_bytes();
            if option.as_bytes() == OUT
                && is_file_word(model)
                && is_file_word(base)
                && !is_output(base, model)
            {
                Ok(Some(Job::Compile {
                    model: Bytes::from_slice(alloc, model)?,
                    base: Bytes::from_slice(alloc, base)?,
                }))
            } else {
                Ok(None)
            }
        }
        _ => Ok(None),
    }
}

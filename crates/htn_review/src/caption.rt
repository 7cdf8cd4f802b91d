//! The caption of the picture of a plan.
ghost use Rattle.std.specs.Prelude.{◌≡◌, ◌++◌, IfOk, codes, map, option_map, string_bytes};
ghost use Rattle.std.specs.Fmt.{decimal};
ghost use Rattle.diagnostics.specs.Shown as shown_spec;
ghost use Rattle.htn_review.specs.Judgement.{verdict_text};
ghost use Rattle.htn_review.specs.Trees as spec;

use diagnostics::shown;
use htn_plan::Verdict;
use itoa::Buffer;
use picture_text::Mark;
use std::alloc::{AllocError, Global};

/// A word of a text, of which each byte is as it is shown.
pub(crate) fn shown_word(alloc: Global, word: &[u8]) -> Result<String, AllocError>
    ensures { IfOk result (λ text. string_bytes text ≡ map shown_spec.shown word.now) }
{
    let bytes = shown_bytes(alloc, word)?;
    let text = String::from_utf8_lossy(alloc, bytes.as_slice())?;
    Ok(text)
}

// The bytes of a word, each as it is shown.
fn shown_bytes(alloc: Global, word: &[u8]) -> Result<Vec<u8>, AllocError>
    ensures { IfOk result (λ bytes. bytes.items ≡ map shown_spec.shown word.now) }
{
    let mut bytes = Vec::new(alloc);
    for byte in word {
        bytes.push(shown(*byte))?;
    }
    Ok(bytes)
}

/// The line of a verdict without its line feed.
pub(crate) fn verdict_words(alloc: Global, verdict: Verdict) -> Result<String, AllocError>
    ensures { IfOk result (λ words. string_bytes words ++ codes "\n" ≡ verdict_text verdict) }
{
    match verdict {
        Verdict::Structure => String::from_str(alloc, "invalid: Structure"),
        Verdict::NoInstance(None) => String::from_str(alloc, "invalid: NoInstance root"),
        Verdict::NoInstance(Some(id)) => words_with_id(alloc, "invalid: NoInstance ", id),
        Verdict::NotExecutable(id) => words_with_id(alloc, "invalid: NotExecutable ", id),
        Verdict::GoalFails => String::from_str(alloc, "invalid: GoalFails"),
        Verdict::NoArrangement => String::from_str(alloc, "invalid: NoArrangement"),
        Verdict::Valid => String::from_str(alloc, "valid"),
    }
}

// A cause with the id of its line.
fn words_with_id(alloc: Global, cause: &str, id: u64) -> Result<String, AllocError>
    ensures { IfOk result (λ words. string_bytes words ≡ cause.now ++ decimal id) }
{
    let mut words = String::from_str(alloc, cause)?;
    let mut buffer = Buffer::new();
    words.push_str(buffer.format(id))?;
    Ok(words)
}

/// The line that a verdict names, with the verdict's name.
pub(crate) fn mark_of<'a>(verdict: Verdict) -> Option<Mark<'a>>
    ensures { option_map spec.seen_mark result ≡ spec.mark_of verdict }
{
    match verdict {
        Verdict::NoInstance(Some(id)) => Some(Mark {
            id,
            cause: "NoInstance",
        }),
        Verdict::NotExecutable(id) => Some(Mark {
            id,
            cause: "NotExecutable",
        }),
        _ => None,
    }
}

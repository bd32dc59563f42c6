//! Which changes a command line asks for.
ghost use Rattle.std.specs.Prelude.{◌≡◌, IfOk, bytes_eq, map};
ghost use Rattle.std.specs.List.{list_all, list_any};
ghost use Rattle.view_commands.specs.Families.{family_of, family_with, is_family, words_of};

use ranked_changes::Family;
use std::alloc::{AllocError, Global};

// The words of a list, with commas between them.
fn words_of(alloc: Global, text: &str) -> Result<Vec<&str>, AllocError>
    ensures { IfOk result (λ words. map (λ word. word.now) words.items ≡ words_of text.now) }
{
    let words = text.split(',').collect::<Vec<&str>>(alloc)?;
    Ok(words)
}

fn is_family(word: &str) -> bool
    ensures { result ≡ is_family word.now }
{
    word == "priority" || word == "mask" || word == "pin" || word == "order"
}

fn are_families(words: &[&str]) -> bool
    ensures { result ≡ list_all (λ word. is_family word.now) words.now }
{
    words.iter().all(|word| is_family(word))
}

fn has_word(words: &[&str], word: &str) -> bool
    ensures { result ≡ list_any (λ other. bytes_eq word.now other.now) words.now }
{
    words.iter().any(|other| word == *other)
}

fn family_with(words: &[&str]) -> Family
    ensures { result ≡ family_with (map (λ word. word.now) words.now) }
{
    Family {
        priority: has_word(words, "priority"),
        mask: has_word(words, "mask"),
        pin: has_word(words, "pin"),
        order: has_word(words, "order"),
    }
}

/// The changes that the words of a list name; none, where a word names none.
pub(crate) fn family_of(alloc: Global, text: &str) -> Result<Option<Family>, AllocError>
    ensures { IfOk result (λ family. family ≡ family_of text.now) }
{
    let words = words_of(alloc, text)?;
    if !are_families(words.as_slice()) {
        return Ok(None);
    }
    Ok(Some(family_with(words.as_slice())))
}

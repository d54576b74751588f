// Words of a line, exactly: where a text is spelled in the asked way, the answer is what was spelled.
ghost use Rattle.std.specs.Prelude.{◌≡◌, ◌<◌, ◌⊎◌, ◌↔◌, ◌^◌, ◌++◌, ◌∷◌, ℕ, [], List, All, length, take, slice_index};
ghost use Rattle.std.specs.Prelude.{IsTrue, IfSome, IfNone, MatchOption, Contains};
ghost use Rattle.std.specs.Fmt.{decimal};
ghost use Rattle.std.specs.Option.{option_copied};
ghost use Rattle.dg_text.specs.Refusals.{IsNumberWord, words, words_behind};

use std::str;

/// What stands behind a word.
pub fn after_word<'a>(text: &'a [u8], word: &[u8]) -> Option<&'a [u8]>
    ensures found { IfSome result (λ rest. text.now ≡ word.now ++ rest.now) }
    ensures exact { (rest : List ℕ) → text.now ≡ word.now ++ rest → MatchOption result ⊥ (λ r. r.now ≡ rest) }
{
    let n = word.len();
    if text.len() < n {
        return None;
    }
    if &text[..n] == word {
        Some(&text[n..])
    } else {
        None
    }
}

/// The place of the first space.
fn first_space(text: &[u8]) -> Option<usize>
    ensures found { IfSome result (λ i. (i < length text.now) × (slice_index text.now i ≡ 32) × (Contains (take i text.now) 32 → ⊥)) }
    ensures none { IfNone result (Contains text.now 32 → ⊥) }
{
    for (i, x) in text.iter().enumerate() {
        if *x == b' ' {
            return Some(i);
        }
    }
    None
}

// What stands before the first space, and behind it.
fn cut_at_space(text: &[u8]) -> Option<(&[u8], &[u8])>
    ensures found { IfSome result (λ cut. text.now ≡ cut.0.now ++ 32 ∷ cut.1.now) }
    ensures exact { (word rest : List ℕ) → (Contains word 32 → ⊥) → text.now ≡ word ++ 32 ∷ rest → MatchOption result ⊥ (λ cut. (cut.0.now ≡ word)
        × (cut.1.now ≡ rest)) }
    ensures first { IfSome result (λ cut. Contains cut.0.now 32 → ⊥) }
    ensures none { IfNone result (Contains text.now 32 → ⊥) }
{
    let i = first_space(text)?;
    Some((&text[..i], &text[i + 1..]))
}

/// The first word of a text, and what stands behind it and a space.
pub fn cut_word(text: &[u8]) -> (&[u8], Option<&[u8]>)
    ensures first { Contains result.0.now 32 → ⊥ }
    ensures text { MatchOption result.1 (text.now ≡ result.0.now) (λ rest. text.now ≡ result.0.now ++ 32 ∷ rest.now) }
    ensures words { words text.now ≡ result.0.now ∷ words_behind (option_copied result.1) }
{
    match cut_at_space(text) {
        Some((word, rest)) => (word, Some(rest)),
        None => (text, None),
    }
}

/// Whether just so many words stand behind a space, and none of them is empty.
pub fn has_words(rest: Option<&[u8]>, count: usize) -> bool
    ensures { IsTrue result ↔ ((length (words_behind (option_copied rest.entry)) ≡ count) × (Contains (words_behind (option_copied rest.entry)) [] → ⊥)) }
{
    let Some(text) = rest else {
        return count == 0;
    };
    let (word, rest) = cut_word(text);
    if word.is_empty() || count == 0 {
        return false;
    }
    has_words(rest, count - 1)
}

/// Whether each of the first so many words behind a space spells a number.
pub fn begins_with_numbers(rest: Option<&[u8]>, count: usize) -> bool
    ensures { IsTrue result ↔ All IsNumberWord (take count (words_behind (option_copied rest.entry))) }
{
    if count == 0 {
        return true;
    }
    let Some(text) = rest else {
        return true;
    };
    let (word, rest) = cut_word(text);
    if whole_number(word).is_none() {
        return false;
    }
    begins_with_numbers(rest, count - 1)
}

/// The number that a text spells, if it spells one.
pub fn whole_number(text: &[u8]) -> Option<u32>
    ensures found { IfSome result (λ n. (n < 2 ^ 32) × (text.now ≡ decimal n)) }
    ensures exact { (n : ℕ) → n < 2 ^ 32 → text.now ≡ decimal n → result ≡ Some n }
    ensures none { IfNone result (IsNumberWord text.now → ⊥) }
{
    if is_padded(text) {
        return None;
    }
    let Ok(digits) = str::from_utf8(text) else {
        return None;
    };
    match digits.parse::<u32>() {
        Ok(n) => Some(n),
        Err(_) => None,
    }
}

// Whether a text begins with a plus, or with a zero and something behind it.
fn is_padded(text: &[u8]) -> bool
    ensures { IsTrue result ↔ ((slice_index text.now 0 ≡ 43) ⊎ ((slice_index text.now 0 ≡ 48) × (1 < length text.now))) }
{
    match text {
        [b'+', ..] => true,
        [b'0', _, ..] => true,
        _ => false,
    }
}

/// The number before the first space, and what stands behind that.
pub fn number_before_space(text: &[u8]) -> Option<(u32, &[u8])>
    ensures found { IfSome result (λ cut. (cut.0 < 2 ^ 32) × (text.now ≡ decimal cut.0 ++ 32 ∷ cut.1.now)) }
    ensures exact { (n : ℕ) (rest : List ℕ) → n < 2 ^ 32 → text.now ≡ decimal n ++ 32 ∷ rest → MatchOption result ⊥ (λ cut. (cut.0 ≡ n) × (cut.1.now ≡ rest)) }
{
    let (word, rest) = cut_at_space(text)?;
    let n = whole_number(word)?;
    Some((n, rest))
}

// Numbers, in decimal without a leading zero.
ghost use Rattle.std.specs.Prelude.{◌≡◌, ◌<◌, ◌^◌, ℕ, Some, IfSome};
ghost use Rattle.std.specs.Fmt.{decimal};

use itoa::Buffer;

/// The number that a word spells, if it is below 2^64.
pub fn long_number(word: &str) -> Option<u64>
    ensures found { IfSome result (λ n. word.now ≡ decimal n) }
    ensures exact { (n : ℕ) → n < 2 ^ 64 → word.now ≡ decimal n → result ≡ Some n }
{
    let Ok(n) = word.parse::<u64>() else {
        return None;
    };
    let mut buffer = Buffer::new();
    if buffer.format(n) == word {
        Some(n)
    } else {
        None
    }
}

/// The number that a word spells, if it is below 2^32.
pub fn number(word: &str) -> Option<u32>
    ensures found { IfSome result (λ n. word.now ≡ decimal n) }
    ensures exact { (n : ℕ) → n < 2 ^ 32 → word.now ≡ decimal n → result ≡ Some n }
{
    let n = long_number(word)?;
    u32::try_from(n).ok()
}

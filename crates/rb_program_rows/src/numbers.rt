//! Numbers in rows.

/// Parses a number of 64 bits: decimal, hexadecimal after `0x`, or negative after `-`.
pub(crate) fn number_of(word: &str) -> Option<u64> {
    if let Some(digits) = word.strip_prefix("0x") {
        return u64::from_str_radix(digits, 16).ok();
    }
    if word.starts_with('-') {
        let number = word.parse::<i64>().ok()?;
        return Some(number.cast_unsigned());
    }
    word.parse::<u64>().ok()
}

/// Parses the first word as a number. Returns it with the rest.
pub(crate) fn number_and_rest(words: &str) -> Option<(u64, &str)> {
    let (word, rest) = words.split_once(' ')?;
    Some((number_of(word)?, rest))
}

/// Parses the number of a unit. Returns it with the rest.
pub(crate) fn unit_and_rest(words: &str) -> Option<(u32, &str)> {
    let (word, rest) = words.split_once(' ')?;
    Some((word.parse::<u32>().ok()?, rest))
}

/// Parses two numbers. Returns them with the rest.
pub(crate) fn two_numbers_and_rest(words: &str) -> Option<(u64, u64, &str)> {
    let (first, rest) = number_and_rest(words)?;
    let (second, rest) = number_and_rest(rest)?;
    Some((first, second, rest))
}

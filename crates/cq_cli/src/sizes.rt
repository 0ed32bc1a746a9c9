//! Numbers of bytes in words.

/// The digits of the word, and how many bytes its unit has: `K` stands for 1,024, `M` for 1,024 of these, and `G` for 1,024 of those.
fn parts_of(word: &str) -> (&str, usize) {
    if let Some(digits) = word.strip_suffix('K') {
        return (digits, 1 << 10);
    }
    if let Some(digits) = word.strip_suffix('M') {
        return (digits, 1 << 20);
    }
    if let Some(digits) = word.strip_suffix('G') {
        return (digits, 1 << 30);
    }
    (word, 1)
}

/// How many bytes the word says, as `65536`, `64K`, `16M` or `1G`; nothing where it says none, or more than there can be.
pub(crate) fn size_of(word: &str) -> Option<usize> {
    let (digits, unit) = parts_of(word);
    match digits.parse::<usize>() {
        Ok(number) => number.checked_mul(unit),
        Err(_) => None,
    }
}

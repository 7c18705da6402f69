ghost use Rattle.std.specs.Prelude.{◌≡◌, ◌≤◌, drop, length};
ghost use Rattle.std.specs.Str.{bytes_eq};
ghost use Rattle.flow_fault.specs.Near.{shared, is_swapped, is_edited, is_near};

/// How many bytes the words share at their fronts.
fn shared(word: &[u8], other: &[u8]) -> usize
    ensures count { result ≡ shared word.now other.now }
    ensures within { (result ≤ length word.now) }
    ensures within_other { (result ≤ length other.now) }
{
    word.iter()
        .zip(other.iter())
        .take_while(|(x, y)| **x == **y)
        .count()
}

/// What follows the first byte.
fn rest(word: &[u8]) -> &[u8]
    ensures { result.now ≡ drop 1 word.entry.now }
{
    match word {
        [] => word,
        [_, rest @ ..] => rest,
    }
}

/// Whether the words are the same.
fn is_same(word: &[u8], other: &[u8]) -> bool
    ensures { result ≡ bytes_eq word.now other.now }
{
    word == other
}

/// Whether the first two bytes stand the other way round, and the others are the same.
fn is_swapped(word: &[u8], other: &[u8]) -> bool
    ensures { result ≡ is_swapped word.now other.now }
{
    let [a, b, word @ ..] = word else {
        return false;
    };
    let [c, d, other @ ..] = other else {
        return false;
    };
    *a == *d && *b == *c && is_same(word, other)
}

/// Whether one edit at their fronts makes the words the same.
fn is_edited(word: &[u8], other: &[u8]) -> bool
    ensures { result ≡ is_edited word.now other.now }
{
    is_same(rest(word), rest(other))
        || is_same(rest(word), other)
        || is_same(word, rest(other))
        || is_swapped(word, other)
}

/// Whether the words differ at one place, if at all.
pub fn is_near(word: &[u8], other: &[u8]) -> bool
    ensures { result ≡ is_near word.now other.now }
{
    let front = shared(word, other);
    is_edited(&word[front..], &other[front..])
}

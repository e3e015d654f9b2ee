//! The numbers that texts say.
ghost use Rattle.std.specs.Prelude.{◌≡◌, ◌≤◌};
ghost use Rattle.rq_words.specs.Numbers.{number_of, digits_times, scaled_of, count_of, zeros_of, last, without_unit};

// Decimal digits alone: no sign stands before them.
fn number(text: &str) -> Option<u64>
    ensures { result ≡ number_of text.now }
{
    if text.starts_with('+') {
        return None;
    }
    text.parse().ok()
}

// A number of digits alone, times a power of ten.
#[tactic(auto, using(crate::proofs::Reading::fits), unfolding(crate::specs::Numbers::digits_times))]
fn digits_times(zeros: usize, text: &str) -> Option<u64>
    requires { zeros ≤ 9 }
    ensures { result ≡ digits_times zeros text.now }
{
    number(text)?.checked_mul(10u64.pow(zeros as u32))
}

/// A number times 10^`places`, where at most `places` digits stand behind its point.
pub(crate) fn scaled(text: &str, places: usize) -> Option<u64>
    requires { places ≤ 9 }
    ensures { result ≡ scaled_of places text.now }
{
    let Some((whole, part)) = text.split_once('.') else {
        return digits_times(places, text);
    };
    if part.len() > places {
        return None;
    }
    let whole = digits_times(places, whole)?;
    whole.checked_add(digits_times(places - part.len(), part)?)
}

// What stands before k, M, G, m or g, and how many zeros the letter stands for.
fn split_unit(text: &str) -> (&str, usize)
    ensures number { result.0.now ≡ without_unit text.now }
    ensures zeros { result.1 ≡ zeros_of (last text.now) }
{
    if let Some(number) = text.strip_suffix('k') {
        return (number, 3);
    }
    if let Some(number) = text.strip_suffix('M') {
        return (number, 6);
    }
    if let Some(number) = text.strip_suffix('m') {
        return (number, 6);
    }
    if let Some(number) = text.strip_suffix('G') {
        return (number, 9);
    }
    if let Some(number) = text.strip_suffix('g') {
        return (number, 9);
    }
    (text, 0)
}

/// A whole number, as `400`, `400k` or `0.5G`.
#[tactic(auto, unfolding(crate::specs::Numbers::count_of))]
pub(crate) fn count(text: &str) -> Option<u64>
    ensures { result ≡ count_of text.now }
{
    let (number, zeros) = split_unit(text);
    scaled(number, zeros)
}

// A script cut into lines, and a line into words.
ghost use Rattle.std.specs.Prelude.{◌≡◌, ◌-◌, ◌<◌, ◌≤◌, ◌==◌, length, position, IfSome};
ghost use Rattle.std.specs.Option.{option_map};
ghost use Rattle.std.specs.Str.{bytes_eq};
ghost use Rattle.account.specs.Words.{cut_at, line_of, rest_of, rest_after};

// Where the first such byte stands.
fn first_place(text: &[u8], at: u8) -> Option<usize>
    ensures { result ≡ position (λ x. x == at) text.now }
{
    text.iter().position(|byte| *byte == at)
}

// What stands before the first such byte, and what behind it; None where there is none.
pub(crate) fn cut(text: &[u8], at: u8) -> Option<(&[u8], &[u8])>
    ensures value { option_map (λ p. (p.0.now, p.1.now)) result ≡ cut_at at text.now }
    ensures shorter { IfSome result (λ p. length p.1.now < length text.now) }
{
    let i = first_place(text, at)?;
    Some((&text[..i], &text[i + 1..]))
}

// The first line, without its end, and what follows it. The last line may lack its end.
pub(crate) fn next_line(text: &[u8]) -> (&[u8], &[u8])
    ensures line { result.0.now ≡ line_of text.now }
    ensures rest { result.1.now ≡ rest_of text.now }
    ensures shorter { length result.1.now ≤ length text.now - 1 }
{
    cut(text, b'\n').unwrap_or((text, &[]))
}

// What follows so many lines: each turn cuts one off what the last one left.
pub(crate) fn past_lines(text: &[u8], count: usize) -> &[u8]
    ensures rest { result.now ≡ rest_after count text.now }
    ensures shorter { length result.now ≤ length text.now }
{
    let mut rest = text;
    for _ in 0..count {
        rest = next_line(rest).1;
    }
    rest
}

// Whether the text is the word.
pub(crate) fn is_word(text: &[u8], word: &str) -> bool
    ensures { result ≡ bytes_eq text.now word.now }
{
    text == word.as_bytes()
}

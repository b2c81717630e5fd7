//! Text of words and numbers, in fixed memory.
//!
//! Not by `write!`: it promises the text only where it succeeds, and no clause says that it does.

#![tactic(auto)]

ghost use Rattle.std.specs.Prelude.{◌≡◌, ◌+◌, ◌≤◌, ◌++◌, length, drop, decimal};
ghost use Rattle.arrayvec.specs.ArrayString.{array_string_len};
ghost use Rattle.text.specs.Lines.{number_line, pair_line};

use arrayvec::ArrayString;
use itoa::Buffer;

/// A text of at most 1,024 bytes.
pub type Text = ArrayString<1024>;

/// Appends a number in decimal digits.
pub fn push_number(text: &mut Text, n: u64)
    requires { array_string_len text.old + length (decimal n) ≤ 1024 }
    ensures { text.new.bytes ≡ text.old.bytes ++ decimal n }
{
    let mut digits = Buffer::new();
    text.push_str(digits.format(n));
}

/// Appends a word with a number behind it, and ends the line.
pub fn push_number_line(text: &mut Text, word: &str, n: u64)
    requires { array_string_len text.old + length (number_line word.now n) ≤ 1024 }
    ensures { text.new.bytes ≡ text.old.bytes ++ number_line word.now n }
{
    text.push_str(word);
    push_number(text, n);
    text.push_str("\n");
}

/// A line of two words, each with a number behind it.
pub fn pair_line(first: &str, m: u64, second: &str, n: u64) -> Text
    requires { length first.now + length second.now ≤ 983 }
    ensures text { result.bytes ≡ pair_line first.now m second.now n }
    ensures short { array_string_len result ≤ length first.now + length second.now + 41 }
{
    let mut text = Text::new();
    text.push_str(first);
    push_number(&mut text, m);
    push_number_line(&mut text, second, n);
    text
}

/// Copies a text to the front of a buffer, and answers the bytes used.
pub fn copy_to_front(text: &Text, buffer: &mut [u8]) -> usize
    requires { 1024 ≤ length buffer.old }
    ensures used { result ≡ length text.now.bytes }
    ensures after { buffer.new ≡ text.now.bytes ++ drop (length text.now.bytes) buffer.old }
    ensures room { result ≤ 1024 }
{
    let used = text.len();
    buffer[..used].copy_from_slice(text.as_str().as_bytes());
    used
}

#[cfg(test)]
mod tests;

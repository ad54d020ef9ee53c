// The tokens of a text, one after another: past the blanks a symbol, or a run of letters.
#![tactic(auto)]

ghost use Rattle.std.specs.Prelude.{◌≡◌, ◌+◌, ◌≤◌, ◌<◌, length, drop, take_while};
ghost use Rattle.grammar.specs.Tokens.{byte_class, is_letter};
ghost use Rattle.recognizer.specs.Classes.{class_index};
ghost use Rattle.lexer.specs.Scanned.{blank_class, blanks_in, letters_in, token_end};

use recognizer::classes::Class;

// Whether a byte is a blank.
fn is_blank(b: u8) -> bool
    ensures { result ≡ blank_class (byte_class b) }
{
    Class::of(b).is_blank()
}

// Whether a byte is a letter, small or capital.
fn is_letter(b: u8) -> bool
    ensures { result ≡ is_letter (byte_class b) }
{
    Class::of(b).is_letter()
}

// How many blanks the bytes begin with.
fn leading_blanks(bytes: &[u8]) -> usize
    ensures { result ≡ length (take_while (λ b. blank_class (byte_class b)) bytes.now) }
{
    bytes.iter().take_while(|b| is_blank(**b)).count()
}

// How many letters the bytes begin with.
fn leading_letters(bytes: &[u8]) -> usize
    ensures { result ≡ length (take_while (λ b. is_letter (byte_class b)) bytes.now) }
{
    bytes.iter().take_while(|b| is_letter(**b)).count()
}

// The first byte from i on that is no blank, or the end.
pub fn skip_blanks(text: &[u8], i: usize) -> usize
    requires { i ≤ length text.now }
    ensures { (result ≡ i + blanks_in (drop i text.now)) × (result ≤ length text.now) }
{
    i + leading_blanks(&text[i..])
}

// The end of the letters from i on.
fn skip_letters(text: &[u8], i: usize) -> usize
    requires { i ≤ length text.now }
    ensures { (result ≡ i + letters_in (drop i text.now)) × (result ≤ length text.now) }
{
    i + leading_letters(&text[i..])
}

// The end of the token that begins at `start` with a byte of a class.
pub fn token_end(text: &[u8], start: usize, class: Class) -> usize
    requires { start < length text.now }
    ensures { (result ≡ token_end text.now start (class_index class)) × (result ≤ length text.now) }
{
    if class.is_symbol() {
        start + 1
    } else {
        skip_letters(text, start)
    }
}

// The number that a word stands for.
ghost use Rattle.std.specs.Prelude.{◌≡◌};
ghost use Rattle.std.specs.Char.{is_ascii_digit};
ghost use Rattle.std.specs.List.{list_all};
ghost use Rattle.texts.specs.Numbers.{number_of};

// Why a word stands for no number.
#[derive(Clone, Copy, Debug, PartialEq, Eq)]
pub enum NotNumber {
    NoDigits,
    TooLarge,
}

// Whether a word is written in decimal digits alone.
fn is_digits(word: &str) -> bool
    ensures { result ≡ list_all is_ascii_digit word.now }
{
    word.bytes().all(|byte| byte.is_ascii_digit())
}

// The number that a word of decimal digits stands for, up to 4294967295.
pub fn read_number(word: &str) -> Result<u32, NotNumber>
    ensures { result ≡ number_of word.now }
{
    if word.is_empty() || !is_digits(word) {
        return Err(NotNumber::NoDigits);
    }
    word.parse().map_err(|_| NotNumber::TooLarge)
}

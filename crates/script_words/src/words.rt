//! Words from their texts.

ghost use Rattle.std.specs.Prelude.{◌≡◌, Option, Some, IfSome};
ghost use Rattle.script_words.specs.Words.{SaysWord, word_read};

use crate::parts::text_in;
use crate::said::{said_of, word_within};
use push_terms::Word;

/// The word whose text this is. It is `None` exactly where the text is not a word's, or a number of
/// the word is out of its range.
pub fn word_of(text: &[u8]) -> Option<Word>
    ensures found { IfSome result (λ word. SaysWord text.now word) }
    ensures only { (word : Word) → SaysWord text.now word → result ≡ Some word }
{
    word_read(text_in(text)?)
}

fn word_read(text: &str) -> Option<Word>
    ensures { result ≡ word_read text.now }
{
    word_within(said_of(text)?)
}

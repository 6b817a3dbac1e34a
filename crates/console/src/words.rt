ghost use Rattle.std.specs.Prelude.{◌≡◌, [], ◌∷◌, map, codes, string_bytes, Decides, MatchOption};
ghost use Rattle.console.specs.Words.{Says, SaysNothing};

use games::deal::Terms;

/// Whether the words ask for the usage alone.
pub fn ask_help(words: &[String]) -> bool
    ensures { Decides result (map string_bytes words.now ≡ codes "--help" ∷ []) }
{
    matches!(words, [word] if word.as_str() == "--help")
}

/// What a side promises and relies on, from a word for each; none where one of them is no number of 32 bits.
pub fn parse_terms(promise: &str, reliance: &str) -> Option<Terms>
    ensures { MatchOption result (SaysNothing promise.now reliance.now) (Says promise.now reliance.now) }
{
    Some(Terms {
        promise: promise.parse().ok()?,
        reliance: reliance.parse().ok()?,
    })
}
